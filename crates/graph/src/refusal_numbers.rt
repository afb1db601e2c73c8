// What a refused opening tells: a number of the table of refusals, a record, and three places.
ghost use Rattle.std.specs.Prelude.{◌≡◌};
ghost use Rattle.graph.specs.Refusals.{prefix_of, number_of, field_of, prefix_in, refusal_of};

use crate::faults::{FileFault, InRecord};
use records::RecordFault;
use refusals::Refusal;
use text::StringFault;

fn prefix_of(fault: StringFault) -> usize
    ensures { result ≡ prefix_of fault }
{
    match fault {
        StringFault::NoName { prefix } | StringFault::NoForm { prefix } => prefix,
    }
}

// The one place that gives the numbers of the table.
fn number_of(fault: RecordFault) -> u32
    ensures { result ≡ number_of fault }
{
    match fault {
        RecordFault::Cut => 1,
        RecordFault::Stray => 2,
        RecordFault::Ragged { .. } => 3,
        RecordFault::Mark { .. } => 4,
        RecordFault::Text(_) => 5,
        RecordFault::Twice { .. } => 6,
        RecordFault::Unknown { .. } => 7,
        RecordFault::Many => 8,
    }
}

fn field_of(fault: RecordFault) -> usize
    ensures { result ≡ field_of fault }
{
    match fault {
        RecordFault::Cut | RecordFault::Stray | RecordFault::Many => 0,
        RecordFault::Ragged { field }
        | RecordFault::Mark { field }
        | RecordFault::Twice { field }
        | RecordFault::Unknown { field } => field,
        RecordFault::Text(found) => found.field,
    }
}

fn prefix_in(fault: RecordFault) -> usize
    ensures { result ≡ prefix_in fault }
{
    match fault {
        RecordFault::Text(found) => prefix_of(found.fault),
        _ => 0,
    }
}

impl From<FileFault> for Refusal {
    ghost from_gives = { λ fault refusal. refusal ≡ refusal_of fault };

    fn from(fault: FileFault) -> Refusal {
        match fault {
            FileFault::Record(
                InRecord {
                    number,
                    start,
                    fault,
                },
            ) => Refusal {
                number: number_of(fault),
                record_number: number,
                start,
                field: field_of(fault),
                prefix: prefix_in(fault),
            },
            FileFault::Size | FileFault::Rows => Refusal::about_no_record(8),
            FileFault::Memory => Refusal::about_no_record(9),
        }
    }
}
