//! Tests of a history that several threads make.

mod notes;
