ghost use Rattle.std.specs.Prelude.{◌≡◌, false, map, string_bytes};
ghost use Rattle.tool_base.specs.Steps.{scene};
ghost use Rattle.tool_run.specs.Run.{Runs, executes};
ghost use Rattle.tool_run.specs.Retrieving.{Retrieves};
ghost use Rattle.tool_run.specs.Fetching.{Fetches};

use pir_io::{Files, Gate, Net, Sink};
use std::alloc::Global;
use std::thread::Threads;
use tool_base::{Command, Status, refuse};
use tool_fetch::fetch_net;
use tool_files::{answer_files, ask_files, noise_files, open_files, prepare_files};
use tool_local::local_files;
use tool_serve::serve_net;

/// The program: does what the words of a command line ask, on the files, the net and the sink that are handed
/// in, and answers the status that the process ends with.
pub fn run<R: Threads + Sync, F: Files, N: Net, G: Gate, O: Sink>(
    rt: &R,
    alloc: Global,
    args: &[String],
    files: &mut F,
    net: &mut N,
    gate: &G,
    out: &mut O,
) -> u8
    requires { (N.seen net.old).is_open ≡ false }
    ensures runs { Runs (map string_bytes args.now) (N.seen net.old) (N.seen net.new) (scene (F.seen files.old) (F.seen files.new) (O.seen out.old) (O.seen out.new)) result }
    ensures retrieves { Retrieves (map string_bytes args.now) (scene (F.seen files.old) (F.seen files.new) (O.seen out.old) (O.seen out.new)) result }
    ensures fetches { Fetches (map string_bytes args.now) (N.seen net.old) (N.seen net.new) (scene (F.seen files.old) (F.seen files.new) (O.seen out.old) (O.seen out.new)) result }
{
    execute(rt, alloc, args, files, net, gate, out).number()
}

// The command that the words give, done.
fn execute<R: Threads + Sync, F: Files, N: Net, G: Gate, O: Sink>(
    rt: &R,
    alloc: Global,
    args: &[String],
    files: &mut F,
    net: &mut N,
    gate: &G,
    out: &mut O,
) -> Status
    requires { (N.seen net.old).is_open ≡ false }
    ensures { executes (map string_bytes args.now) (N.seen net.old) (N.seen net.new) (scene (F.seen files.old) (F.seen files.new) (O.seen out.old) (O.seen out.new)) result }
{
    match Command::from_words(args) {
        Some(Command::Prepare(prepare)) => prepare_files(alloc, files, out, &prepare),
        Some(Command::Ask(ask)) => ask_files(alloc, files, out, &ask),
        Some(Command::Answer(answer)) => answer_files(rt, alloc, files, gate, out, &answer),
        Some(Command::Open(open)) => open_files(alloc, files, out, &open),
        Some(Command::Noise(noise)) => noise_files(alloc, files, out, &noise),
        Some(Command::Local(local)) => local_files(rt, alloc, files, gate, out, &local),
        Some(Command::Serve(serve)) => serve_net(rt, alloc, files, net, gate, out, &serve),
        Some(Command::Fetch(fetch)) => fetch_net(alloc, files, net, out, &fetch),
        None => refuse(out, b"usage\n", Status::Usage),
    }
}
