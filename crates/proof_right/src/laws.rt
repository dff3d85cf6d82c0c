//! What holds of every run.

ghost use Rattle.std.specs.Prelude.{◌<◌, ◌≡◌, ℕ, length, slice_index};
ghost use Rattle.client_request.specs.Composed.{composed};
ghost use Rattle.right_trace.specs.Messages.{Composes, Octets};
ghost use Rattle.right_trace.specs.Parts.{flags_in};
ghost use Rattle.right_trace.specs.Trace.{Conf};
ghost use Rattle.proof_right.specs.Theorem.{EveryCachedRunHits, EveryRunIsRight, EveryRunOfOneServerIsRight, RunsOfOneServerAreRuns, EveryCachedRunServesStale};

/// What is composed of a request carries it, and a request is refused only where its base is not read or a
/// section would have too many entries.
pub fn composing_composes()
    ensures { (c : Conf) → Composes c composed }
{}

/// Every run of the client of small moves is right and timely: any number of servers, by datagrams and streams, with
/// deferring and the cache, however it composes, whatever happens.
pub fn every_run_is_right()
    ensures { EveryRunIsRight }
{}

/// A client of one server by datagrams that comes upon no cut answer makes only runs of the client of small moves, so
/// each of these is right and timely.
pub fn runs_of_one_server_are_runs()
    ensures runs { RunsOfOneServerAreRuns }
    ensures right { EveryRunOfOneServerIsRight }
{}

/// In every run whose cache is exact, an asking that the cache must answer is answered in its own row.
pub fn every_cached_run_hits()
    ensures { EveryCachedRunHits }
{}

/// In every run whose cache is exact, a request for which a kept message had expired does not fail by its servers or
/// its deadline while that message may serve.
pub fn every_cached_run_serves_stale()
    ensures { EveryCachedRunServesStale }
{}

/// The parts of a header are all bits of its four octets, bit Z too (RFC 1035 4.1.1).
pub fn headers_have_all_bits()
    ensures { (h g : Octets) → length h ≡ 4 → length g ≡ 4 → ((i : ℕ) → slice_index h i < 256) → ((i : ℕ) → slice_index g i < 256) → flags_in h ≡ flags_in g → h ≡ g }
{}
