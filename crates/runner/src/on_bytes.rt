//! Requests, carried out on a byte medium of loads over lent memory.

ghost use Rattle.std.specs.Prelude.{◌≡◌, map, length, Ok};
ghost use Rattle.medium.specs.Array.{after, replies};
ghost use Rattle.media.specs.Bytes.{byte_survey};
ghost use Rattle.reader.specs.Checked.{requests_left};
ghost use Rattle.runner.specs.OnBytes.{Memory, array_in, new_memory, memory_after, byte_answer, byte_totals};
ghost use Rattle.runner.specs.Playing.{calls_of, marked};

use crate::play::carry_out;
use crate::totals::Totals;
use line::load::Load;
use media::bytes::ByteMedium;
use medium::left::left;
use medium::medium::Medium;
use reader::requests::CheckedRequests;
use runfile::slot::Slot;

// Carries out checked requests on memory that was surveyed, and marks each one's slot with its answer.
pub(crate) fn on_bytes(
    bytes: &mut [u8],
    counts: &mut [u32],
    life: u32,
    requests: CheckedRequests<'_>,
    slots: &mut [Slot],
) -> Totals
    requires fit { byte_survey 16 (length counts.old) life (length bytes.old) ≡ Ok tt }
    requires one_each { length (requests_left requests) ≡ length slots.old }
    ensures slots { slots.new ≡ marked slots.old (map byte_answer (replies (array_in (new_memory bytes.entry.now (length counts.old)) life) (calls_of (requests_left requests.entry)))) }
    ensures memory { ◌≡◌ {A = Memory} (record { bytes = bytes.exit.now; counts = counts.new }) (memory_after (new_memory bytes.entry.now (length counts.old)) life (calls_of (requests_left requests.entry))) }
    ensures array { array_in (memory_after (new_memory bytes.entry.now (length counts.old)) life (calls_of (requests_left requests.entry))) life ≡ after (array_in (new_memory bytes.entry.now (length counts.old)) life) (calls_of (requests_left requests.entry)) }
    ensures totals { result ≡ byte_totals (length slots.old) (after (array_in (new_memory bytes.entry.now (length counts.old)) life) (calls_of (requests_left requests.entry))) }
{
    let mut medium = ByteMedium::<Load>::new(bytes, counts, life as u64);
    carry_out(&mut medium, requests, slots);
    Totals {
        requests: slots.len(),
        taken: medium.taken(),
        left: left(&medium),
        copies: 0,
        wear: medium.wear(),
    }
}
