ghost use Rattle.std.specs.Prelude.{◌≡◌, ◌++◌, false, IfOk};
ghost use Rattle.tool_files.specs.Given.{IsAnswer};
ghost use Rattle.tool_fetch.specs.Exchanging.{Exchanges};

mod receiving;
mod sending;

use frame_headers::FrameError;
use pir_io::{IoFault, Net};
use receiving::receive;
use sending::send;
use std::alloc::Global;
use tool_files::PeerAnswer;

/// Why nothing came of an exchange with a server.
#[derive(Clone, Copy, Debug, PartialEq, Eq)]
pub(crate) enum LinkError {
    /// A call of the net failed.
    Fault,
    /// What came isn't the one frame that is expected, and is refused for this reason.
    Frame(FrameError),
    /// Memory was wanting.
    NoMemory,
}

/// Sends a setup and a query to the server at an address, and receives what it sends for them: a reply or a refusal.
pub(crate) fn exchange<N: Net>(
    alloc: Global,
    net: &mut N,
    addr: &str,
    setup: &[u8],
    query: &[u8],
) -> Result<PeerAnswer, LinkError>
    requires { (N.seen net.old).is_open ≡ false }
    ensures does { Exchanges (N.seen net.old) (N.seen net.new) addr.now (setup.now ++ query.now) result }
    ensures fits { IfOk result (λ answer. IsAnswer answer) }
{
    match send(net, addr, setup, query) {
        Ok(()) => receive(alloc, net),
        Err(IoFault::Failed) => Err(LinkError::Fault),
        Err(IoFault::NoMemory) => Err(LinkError::NoMemory),
    }
}
