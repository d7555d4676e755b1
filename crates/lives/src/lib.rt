// Whole lives of an oracle.
//
// A life is one creation over a map and then any list of calls, refused ones included. `live` lives one life, `live_lines` one over
// lines of which some are no call, and `live_twice` two, whose contract carries the promise over lives: every call does and answers
// what is defined for it, lengths answered are best, no way is answered exactly if there is none, and equal questions about equal
// streets get equal answers. Nothing is expected of the caller, and nothing is allocated.
// A list that is longer than the places for answers is lived as far as the places reach; nothing is said of the calls after that.
#![tactic(auto)]

ghost use Rattle.std.specs.Prelude.{◌≡◌, ◌<◌, ◌≤◌, true, false, List, length, drop, Some, Option as Maybe, IsNone, IsSome, IfSome, ◌↔◌, refl};
ghost use Rattle.lengths.specs.Kinds.{Kind};
ghost use Rattle.calls.specs.declared.Call.{Call as Command};
ghost use Rattle.calls.specs.declared.Call.TheVariants.{Build, Replan};
ghost use Rattle.calls.specs.declared.Answer.{Answer};
ghost use Rattle.calls.specs.declared.Answer.TheVariants.{Done};
ghost use Rattle.calls.specs.Moments.{Moment, created, after};
ghost use Rattle.calls.specs.Gives.{Gives};
ghost use Rattle.calls.specs.Lives.{Life, front};
ghost use Rattle.calls.specs.Promise.{LengthsBest, NoWaysExact, AnswersAgree, Promise};
ghost use Rattle.tables.specs.Tables.{moment_of};
ghost use Rattle.tables.specs.Fits.{PlanFits, IndexFits};
ghost use Rattle.lives.specs.Lines.{common_front, calls_among, answers_among, OthersKept, LivedLines, LivedOn};

use calls::{Answer, Call, Fault};
use lengths::Zeroed;
use maps::TwoWay;
use oracle::{Index, Plan};

/// A line of a life: a call, or something else.
pub trait Line {
    ghost meant: { Self → Maybe Command };

    /// The call that the line is, if any.
    fn call(&self) -> Option<Call>
        ensures { result ≡ meant self.now };
}

impl Line for Call {
    ghost meant = { Some };

    fn call(&self) -> Option<Call> {
        Some(*self)
    }
}

impl Line for Option<Call> {
    ghost meant = { λ line. line };

    fn call(&self) -> Option<Call> {
        *self
    }
}

/// The oracle between two of its changes: a plan answers every call but build, an index every call but replan.
trait State<M: TwoWay> {
    ghost kind: { Kind };

    ghost ending: { Command };

    ghost map_of: { Self → M };

    ghost moment: { Self → Moment };

    ghost Fits: { Self → Type 0 };

    /// The answer of the call; none if the call ends the state, which is then as it was.
    fn answer(&mut self, call: Call) -> Option<Answer>
        requires { Fits self.old }
        ensures same { map_of self.new ≡ map_of self.old }
        ensures fits { Fits self.new }
        ensures ends { IsNone result ↔ (call ≡ ending) }
        ensures kept { IsNone result → self.new ≡ self.old }
        ensures answered { IfSome result (Gives kind (M.Map.graph (map_of self.old)) (moment self.old) call) }
        ensures moved { IsSome result → moment self.new ≡ after (M.Map.graph (map_of self.old)) (moment self.old) call };

    ghost ends_done: { (s : Self) → Gives kind (M.Map.graph (map_of s)) (moment s) ending Done };
}

impl<M: TwoWay, K: Zeroed> State<M> for Plan<M, K> {
    ghost kind = { K.Length.kind };

    ghost ending = { Build };

    ghost map_of = { λ plan. plan.map };

    ghost moment = { λ plan. moment_of false plan.tables };

    ghost Fits = { λ plan. PlanFits (M.Map.graph plan.map) plan.tables };

    ghost ends_done = { λ _. refl };

    fn answer(&mut self, call: Call) -> Option<Answer> {
        match call {
            Call::Name(v) => Some(self.name(v).into()),
            Call::Build => None,
            _ => Some(Answer::Refused(Fault::StateLacks)),
        }
    }
}

impl<M: TwoWay, K: Zeroed> State<M> for Index<M, K> {
    ghost kind = { K.Length.kind };

    ghost ending = { Replan };

    ghost map_of = { λ index. index.map };

    ghost moment = { λ index. moment_of true index.tables };

    ghost Fits = { λ index. IndexFits K.Length.kind (M.Map.graph index.map) index.tables };

    ghost ends_done = { λ _. refl };

    fn answer(&mut self, call: Call) -> Option<Answer> {
        match call {
            Call::Close(e) => Some(self.close(e).into()),
            Call::Reopen(e) => Some(self.reopen(e).into()),
            Call::Ask(s, t) => Some(self.ask(s, t).into()),
            Call::Tally => Some(Answer::Count(self.tally())),
            Call::Replan => None,
            Call::Name(_) | Call::Build => Some(Answer::Refused(Fault::StateLacks)),
        }
    }
}

// Lives the lines from a place on by one state, up to the call that ends it, which is done; answers the place after that call. None if
// the lines or the places for answers end before.
// Not inlined: plan and index are then moved less often between two such turns.
#[inline(never)]
fn live_state<M: TwoWay, S: State<M>, L: Line>(
    state: &mut S,
    lines: &[L],
    answers: &mut [Answer],
    from: usize,
) -> Option<usize>
    requires { S.Fits state.old }
    ensures same { S.map_of state.new ≡ S.map_of state.old }
    ensures fits { S.Fits state.new }
    ensures on { IfSome result (λ next. (from < next) × (next ≤ length lines.now)) }
    ensures lived { (before : List Answer) → LivedLines L.Line.meant S.kind (M.Map.graph (S.map_of state.old)) lines.now before answers.old from (S.moment state.old) → LivedOn L.Line.meant S.kind (M.Map.graph (S.map_of state.old)) lines.now before answers.new (S.moment state.new) S.ending result }
{
    // By index: what a zip with `iter_mut` leaves in `answers` is not known (`returns-clause-lived`).
    for i in from..lines.len().min(answers.len()) {
        if let Some(call) = lines[i].call() {
            let Some(answer) = state.answer(call) else {
                answers[i] = Answer::Done;
                return Some(i + 1);
            };
            answers[i] = answer;
        }
    }
    None
}

/// A life over lines: each line that is a call has its answer in the place of its number, and every other place stays as it was. The map is
/// given back.
pub fn live_lines<M: TwoWay, K: Zeroed, L: Line>(map: M, lines: &[L], answers: &mut [Answer]) -> M
    ensures same { result ≡ map }
    ensures life { Life K.Length.kind (M.Map.graph map) created (calls_among L.Line.meant (common_front lines.now answers.old lines.now)) (answers_among L.Line.meant (common_front lines.now answers.old lines.now) (common_front lines.now answers.old answers.new)) }
    ensures kept { OthersKept L.Line.meant lines.now answers.old answers.new }
{
    let mut plan = Plan::<M, K>::new(map);
    let mut from = 0;
    while let Some(built) = live_state(&mut plan, lines, answers, from) {
        let mut index = plan.build();
        let Some(planned) = live_state(&mut index, lines, answers, built) else {
            return index.into_map();
        };
        plan = index.replan();
        from = planned;
    }
    plan.into_map()
}

/// A whole life: each call has its answer in the place of its number; places past the calls stay as they were. The map is given back.
pub fn live<M: TwoWay, K: Zeroed>(map: M, calls: &[Call], answers: &mut [Answer]) -> M
    ensures same { result ≡ map }
    ensures life { Life K.Length.kind (M.Map.graph map) created (front calls.now answers.old calls.now) (front calls.now answers.old answers.new) }
    ensures rest { drop (length calls.now) answers.new ≡ drop (length calls.now) answers.old }
{
    live_lines::<M, K, Call>(map, calls, answers)
}

/// Two lives, over two maps with one kind of length, and the promise over them.
pub fn live_twice<M: TwoWay, N: TwoWay, K: Zeroed>(
    first: M,
    second: N,
    calls: &[Call],
    others: &[Call],
    answers: &mut [Answer],
    more: &mut [Answer],
) -> (M, N)
    ensures same { (result.0 ≡ first) × (result.1 ≡ second) }
    ensures rest { (drop (length calls.now) answers.new ≡ drop (length calls.now) answers.old) × (drop (length others.now) more.new ≡ drop (length others.now) more.old) }
    ensures first { Life K.Length.kind (M.Map.graph first) created (front calls.now answers.old calls.now) (front calls.now answers.old answers.new) }
    ensures second { Life K.Length.kind (N.Map.graph second) created (front others.now more.old others.now) (front others.now more.old more.new) }
    ensures lengths { LengthsBest K.Length.kind (M.Map.graph first) (front calls.now answers.old calls.now) (front calls.now answers.old answers.new) × LengthsBest K.Length.kind (N.Map.graph second) (front others.now more.old others.now) (front others.now more.old more.new) }
    ensures no_ways { NoWaysExact (M.Map.graph first) (front calls.now answers.old calls.now) (front calls.now answers.old answers.new) × NoWaysExact (N.Map.graph second) (front others.now more.old others.now) (front others.now more.old more.new) }
    ensures agree { AnswersAgree (M.Map.graph first) (N.Map.graph second) (front calls.now answers.old calls.now) (front others.now more.old others.now) (front calls.now answers.old answers.new) (front others.now more.old more.new) }
    ensures promise { Promise K.Length.kind (M.Map.graph first) (N.Map.graph second) (front calls.now answers.old calls.now) (front others.now more.old others.now) (front calls.now answers.old answers.new) (front others.now more.old more.new) }
{
    let one = live::<M, K>(first, calls, answers);
    let two = live::<N, K>(second, others, more);
    (one, two)
}
