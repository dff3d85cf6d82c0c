//! What holds of each legal history.

ghost use Rattle.proof_shared.specs.Histories.{LegalHistories};

use proof_client::traces_with_settings;

/// The rows of a legal history are the plain trace of its events, in their order; where these were handed in, they are right
/// and timely, give what is kept, and serve what has expired. It does nothing.
pub fn legal_histories()
    ensures { LegalHistories }
{
    traces_with_settings();
}
