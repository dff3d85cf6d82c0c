//! Octets of a stream that come in pieces do to a client what they do in one: mathematics alone.
//!
//! Mathematics alone: where one event that brings octets to a stream is replaced by several for the same place and moment,
//! one behind another with the same octets in all, the same is put out in the same order, and the same client with the same
//! words is left, whatever the client had been told before. By `every_plain_trace_may_be_cut`.
//!
//! `every_plain_trace_may_be_cut` says of every plain trace that its events may be cut (`MayBeCut`): one client is left by
//! them with outs that are those of the rows in order, and the same client, with the same outs in order, by the events of
//! which one that brings octets is replaced by several (`IsCut`). It stands on `IsCuttable`, what each transport owes at a
//! place so that octets may come in pieces, which is proved of connections by stream, of reconnection, of datagrams, of the
//! fallback, of one server, and, over any transport that owes it, of a choice and of a cache.
//!
//! # Why it is so
//!
//! - **Pieces.** The cutting law speaks of the client of a configuration from its beginning, whatever it was told, and so
//!   of every client that can be reached. Of any value of the plain client it would be false: of two servers that have one
//!   place, or where a result still waits on a server's board, the outs of two pieces come in another order. `IsFitLayer`
//!   (`crates/proof_cutting/specs/Layers.antt`) keeps that away, and the ties give it.
#![tactic(auto)]

mod laws;

pub use laws::{every_plain_trace_may_be_cut, traces_may_be_cut, worked_cut};
