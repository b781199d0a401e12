//! A link that loses nothing.
ghost use Rattle.std.specs.Prelude.{◌≡◌, ◌-◌};
ghost use Rattle.sm_protocol.specs.declared.event.Passage.TheVariants.{Through};

use sm_machine::Link;
use sm_protocol::Passage;
use sm_reservation::StreamId;

/// A link that loses nothing.
#[derive(Clone, Copy, Debug)]
pub struct Sure;

impl Link for Sure {
    ghost use Rattle.std.specs.Prelude.{◌≡◌};
    ghost use Rattle.sm_protocol.specs.declared.event.Passage.TheVariants.{Through};

    ghost losses = { λ link. 0 };

    ghost asked = { λ old stream number passage new. passage ≡ Through };

    fn passage(&mut self, _stream: StreamId, _number: u64) -> Passage {
        Passage::Through
    }

    fn lost(&self) -> u64 {
        0
    }
}
