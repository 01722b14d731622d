ghost use Rattle.std.specs.Prelude.{◌≡◌, ◌++◌, IsTrue, false};
ghost use Rattle.pir_io.specs.Link.{WritesLink};
ghost use Rattle.tool_fetch.specs.Exchanging.{WritesAndEnds, Sends};

use pir_io::{IoFault, Link, Net};

// Writes bytes, where there are some.
fn write_some<L: Link>(link: &mut L, bytes: &[u8]) -> Result<(), IoFault>
    requires { IsTrue (L.seen link.old).is_open }
    ensures { WritesLink (L.seen link.old) (L.seen link.new) bytes.now result }
{
    if bytes.is_empty() {
        return Ok(());
    }
    link.write(bytes)
}

// Writes a setup and a query, and closes the writing side.
fn write_both<L: Link>(link: &mut L, setup: &[u8], query: &[u8]) -> Result<(), IoFault>
    requires { IsTrue (L.seen link.old).is_open }
    ensures { WritesAndEnds (L.seen link.old) (L.seen link.new) (setup.now ++ query.now) result }
{
    if let Err(fault) = write_some(link, setup) {
        return Err(fault);
    }
    if let Err(fault) = link.write(query) {
        return Err(fault);
    }
    link.end()
}

/// Connects to an address, writes a setup and a query, and closes the writing side.
pub(crate) fn send<N: Net>(
    net: &mut N,
    addr: &str,
    setup: &[u8],
    query: &[u8],
) -> Result<(), IoFault>
    requires { (N.seen net.old).is_open ≡ false }
    ensures { Sends (N.seen net.old) (N.seen net.new) addr.now (setup.now ++ query.now) result }
{
    match net.connect(addr) {
        Ok(()) => write_both(net, setup, query),
        Err(fault) => Err(fault),
    }
}
