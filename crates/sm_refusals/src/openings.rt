//! Placements that are not opened.
ghost use Rattle.std.specs.Prelude.{◌≡◌};
ghost use Rattle.sm_refusals.specs.Refusals.{fields_of, refusal_model};
ghost use Rattle.sm_refusals.specs.Openings.{open_refusal, placement_refusal};

use crate::field::{Field, Fields};
use crate::refusal::RefusalText;
use sm_placement::{Config, OpenFault};

fn refused<'a>(number: u32, kind: &'a str, fields: Fields<'a>) -> RefusalText<'a>
    ensures { refusal_model result ≡ placement_refusal number kind.now (fields_of fields.entry) }
{
    RefusalText {
        front: "placement refused: ",
        number,
        kind,
        fields,
    }
}

/// Why a placement is not opened.
pub fn open_refusal<'a>(config: &'a Config, fault: OpenFault) -> RefusalText<'a>
    ensures { refusal_model result ≡ open_refusal config.now fault }
{
    match fault {
        OpenFault::NoMemory => refused(1, "NoMemory", Fields::None),
        OpenFault::TooMany => refused(2, "TooMany", Fields::None),
        OpenFault::UnknownName => refused(3, "UnknownName", Fields::None),
        OpenFault::DoubleCell { shard, server } => {
            let fields = Fields::Two(Field::shard(config, shard), Field::server(config, server));
            refused(4, "DoubleCell", fields)
        }
        OpenFault::BadLead { shard } => refused(
            5,
            "BadLead",
            Fields::One(Field::shard(config, shard)),
        ),
        OpenFault::BadListing { shard } => refused(
            6,
            "BadListing",
            Fields::One(Field::shard(config, shard)),
        ),
        OpenFault::OverRoom { server } => refused(
            7,
            "OverRoom",
            Fields::One(Field::server(config, server)),
        ),
        OpenFault::Short { shard } => refused(8, "Short", Fields::One(Field::shard(config, shard))),
        OpenFault::TooManyDown => refused(9, "TooManyDown", Fields::None),
    }
}
