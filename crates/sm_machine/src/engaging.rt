//! Streams that engage a server: they are unfinished, and their code mentions it.
ghost use Rattle.std.specs.Prelude.{◌≡◌, ◌<◌, length};
ghost use Rattle.sm_machine.specs.Engaged.{engages_in, engaged_in};

use crate::begun::Begun;
use sm_reservation::StreamId;
use sm_server::ServerId;

impl Begun {
    /// Tells whether the stream is unfinished, and its code mentions the server.
    fn engages(&self, stream: usize, server: ServerId) -> bool
        requires { stream < length self.now.plan.streams }
        ensures { result ≡ engages_in self.now server stream }
    {
        if self.progress(stream).done {
            return false;
        }
        self.mentions(stream, server)
    }

    /// Returns the lowest stream that engages the server, under the plan's number.
    pub fn engaged(&self, plan: u32, server: ServerId) -> Option<StreamId>
        ensures { result ≡ engaged_in self.now plan server }
    {
        let count = self.plan().streams().len();
        for stream in 0..count {
            if self.engages(stream, server) {
                return Some(StreamId {
                    plan,
                    stream: stream as u32,
                });
            }
        }
        None
    }
}
