//! What a walk is made in.

ghost use Rattle.std.specs.Prelude.{◌≡◌, List, Option, IfOk, OnOk};
ghost use Rattle.dns_lookup_walk.specs.Deeds.{Deed, after_deed, asked, looked_up, told};

use crate::server::NameServer;
use crate::verdict::Verdict;
use dns_base::{IpAddr, Message, Name, NoMemory, Seq};

/// What a walk is made in: what asks servers, looks names up, and is told what answers mean. Where it knows what was done with it, it
/// tells that as one list.
pub trait World {
    ghost deeds: { Self → Option (List Deed) };

    /// Asks a server one question: by datagram, and by stream where what came is cut. None where no message came in the time that the
    /// world gives it.
    fn ask(&mut self, server: &NameServer, question: &Message) -> Result<Option<Message>, NoMemory>
        ensures { IfOk result (λ came. deeds self.new ≡ after_deed (asked server.now question.now came) (deeds self.old)) };

    /// The addresses of a name, which others look up; none where they find none in the time that the world gives them.
    fn look_up(&mut self, name: &Name) -> Result<Seq<IpAddr>, NoMemory>
        ensures { IfOk result (λ addresses. deeds self.new ≡ after_deed (looked_up name.now addresses) (deeds self.old)) };

    /// Is told what it means that this came of a server, which was asked just before.
    fn tell(
        &mut self,
        server: &NameServer,
        came: &Option<Message>,
        verdict: &Verdict,
    ) -> Result<(), NoMemory>
        ensures { OnOk result (deeds self.new ≡ after_deed (told server.now came.now verdict.now) (deeds self.old)) };
}
