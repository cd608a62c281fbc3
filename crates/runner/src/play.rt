//! Requests, carried out one after another on any medium of loads.

ghost use Rattle.std.specs.Prelude.{◌≡◌, [], ◌∷◌, length, Ok};
ghost use Rattle.medium.specs.Chain.{InTurn};
ghost use Rattle.reader.specs.Checked.{requests_left};
ghost use Rattle.runfile.specs.Asks.{Sixteen, placed_of};
ghost use Rattle.runner.specs.Playing.{call_of, calls_of, Played};

use line::answer::Answer;
use line::kind::LineKind;
use line::load::Load;
use medium::ask::ask;
use medium::call::Call;
use medium::medium::Medium;
use reader::requests::CheckedRequests;
use runfile::request::Request;
use runfile::slot::Slot;

// What a request asks of a medium of loads. `Sixteen` is asked, since a rule of the project has a request's bytes as a slice, and no array.
fn call_of(request: Request<'_>) -> Call<Load>
    requires sixteen { Sixteen (Ok request) }
    ensures call { result ≡ call_of (placed_of request.entry).ask }
{
    match request {
        Request::Read { line, .. } => Call::Read(line),
        Request::Write { line, bytes, .. } => {
            let Ok(load) = Load::read_from(bytes) else {
                unreachable();
            };
            Call::Write(line, load)
        }
    }
}

// The answer of a medium to one request. That its memory is still lent, one word, is part of what each function that hands it on answers.
fn answer<M: Medium<Line = Load>>(medium: &mut M, request: Request<'_>) -> Answer<Load>
    requires sixteen { Sixteen (Ok request) }
    ensures memory { M.Medium.memory medium.new ≡ M.Medium.memory medium.old }
    ensures turn { InTurn M.Medium medium.old (call_of (placed_of request.entry).ask ∷ []) (result ∷ []) medium.new }
{
    ask(medium, call_of(request))
}

// Carries out checked requests, and marks each one's slot with its answer.
pub(crate) fn carry_out<M: Medium<Line = Load>>(
    medium: &mut M,
    mut requests: CheckedRequests<'_>,
    slots: &mut [Slot],
)
    requires one_each { length (requests_left requests) ≡ length slots.old }
    ensures memory { M.Medium.memory medium.new ≡ M.Medium.memory medium.old }
    ensures played { Played M.Medium medium.old (calls_of (requests_left requests.entry)) slots.old slots.new medium.new }
{
    // No `zip`: of slots written through one a proof knows nothing afterwards.
    for slot in slots.iter_mut() {
        let Some(request) = requests.next() else {
            unreachable();
        };
        slot.answer = Some(answer(medium, request));
    }
}
