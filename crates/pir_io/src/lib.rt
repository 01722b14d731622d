//! The outside of the program: files, links, a net, a sink and the gate of the workers, each as a trait with a
//! written meaning and a count of faults, beside objects in memory and the real ones.
#![tactic(auto)]

mod connection;
mod contents;
mod count;
mod fault;
mod files;
mod gate;
mod host_files;
mod link;
mod mem_files;
mod mem_link;
mod mem_net;
mod mem_sink;
mod out_sink;
mod peer_input;
mod plan;
mod sessions;
mod sink;
mod sound_files;
mod sound_net;
mod sound_sink;
mod tcp_net;
mod whole_files;

pub use fault::IoFault;
pub use files::Files;
pub use gate::{Gate, OpenGate};
pub use host_files::HostFiles;
pub use link::{Link, Net};
pub use mem_files::MemFiles;
pub use mem_link::MemLink;
pub use mem_net::MemNet;
pub use mem_sink::MemSink;
pub use out_sink::OutSink;
pub use sink::Sink;
pub use sound_files::SoundFiles;
pub use sound_net::SoundNet;
pub use sound_sink::SoundSink;
pub use tcp_net::{Limits, TcpNet};
pub use whole_files::{PIECE, read_front, write_file};
