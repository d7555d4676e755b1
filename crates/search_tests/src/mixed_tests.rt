// Lives of hundreds of mixed calls beside the simple search.
use super::drawing::*;
use super::relaxing::*;
use arrayvec::ArrayVec;
use block::Block;
use calls::{Answer, Call, Fault};
use lengths::{Gates, Paces, Zeroed};
use lives::live;
use maps::{Map, TwoWay};
use sheet::Sheet;
use std::process::Abort;
use std::test::Fail;

// How many calls each life has.
const LIFE: usize = 300;

// What the calls before lead to. A flag tells plan from index, since marks and tally outlast both.
#[derive(Drop)]
struct Moment {
    built: bool,
    named: ArrayVec<u16, 16>,
    closed: [bool; 512],
    asks: u16,
}

fn is_junction<M: Map>(map: &M, v: u16) -> bool {
    (1..=map.junctions()).contains(&v)
}

impl Moment {
    // Before the first call.
    fn first() -> Self {
        Moment {
            built: false,
            named: ArrayVec::new(),
            closed: [false; 512],
            asks: 0,
        }
    }

    // Whether the plan or index has the call.
    fn has(&self, call: Call) -> bool {
        matches!(call, Call::Name(_) | Call::Build) != self.built
    }

    fn name<M: Map>(&mut self, map: &M, v: u16) -> Result<Answer, Fault> {
        if !is_junction(map, v) {
            return Err(Fault::OffMap);
        }
        if self.named.contains(&v) {
            return Err(Fault::AlreadyNamed);
        }
        self.named.try_push(v).map_err(|_| Fault::ListFull)?;
        Ok(Answer::Done)
    }

    // Close or reopen.
    fn mark<M: Map>(&mut self, map: &M, e: u16, close: bool) -> Result<Answer, Fault> {
        map.slot(e).ok_or(Fault::SlotAbsent)?;
        let i = usize::from(e).wrapping_sub(1);
        let mark = self.closed.get_mut(i).ok_or(Fault::SlotAbsent)?;
        match (*mark, close) {
            (true, true) => return Err(Fault::AlreadyClosed),
            (false, false) => return Err(Fault::NotClosed),
            _ => *mark = close,
        }
        Ok(Answer::Done)
    }

    fn ask<M: Map, K: Zeroed>(&mut self, map: &M, s: u16, t: u16) -> Result<Answer, Fault> {
        if !is_junction(map, s) || !is_junction(map, t) {
            return Err(Fault::EndOffMap);
        }
        self.asks = self.asks.saturating_add(1);
        let question = Question {
            transit: &[],
            closed: &self.closed,
            root: s,
        };
        let lengths = question.relaxed::<M, K>(map);
        let best = lengths.get(usize::from(t)).copied().flatten();
        Ok(best.map_or(Answer::NoWay(0), |length| Answer::Length(length, 0)))
    }

    // What is answered to the call, with 0 as the redone count.
    fn answer<M: Map, K: Zeroed>(&mut self, map: &M, call: Call) -> Result<Answer, Fault> {
        if !self.has(call) {
            return Err(Fault::StateLacks);
        }
        match call {
            Call::Name(v) => return self.name(map, v),
            Call::Close(e) => return self.mark(map, e, true),
            Call::Reopen(e) => return self.mark(map, e, false),
            Call::Ask(s, t) => return self.ask::<M, K>(map, s, t),
            Call::Tally => return Ok(Answer::Count(self.asks)),
            Call::Build => self.built = true,
            Call::Replan => {
                self.built = false;
                self.named.clear();
            }
        }
        Ok(Answer::Done)
    }
}

// The answer with 0 as its redone count.
fn bare(answer: Answer) -> Answer {
    match answer {
        Answer::Length(length, _) => Answer::Length(length, 0),
        Answer::NoWay(_) => Answer::NoWay(0),
        other => other,
    }
}

// A call by chance; junctions and slots off the map are among them.
fn call_by_chance(last: u32) -> Call {
    let v = (last / 16 % 24) as u16;
    let e = (last / 16 % 97) as u16;
    match last % 16 {
        0 => Call::Name(v),
        1 => Call::Build,
        2 if v < 4 => Call::Replan,
        2 => Call::Tally,
        3..=7 => Call::Close(e),
        8 | 9 => Call::Reopen(e),
        _ => Call::Ask(v, (last / 384 % 24) as u16),
    }
}

// Names, a build, and then calls by chance.
fn calls_by_chance(names: u16, seed: u32) -> [Call; LIFE] {
    let mut calls = [Call::Build; LIFE];
    for (call, v) in calls.iter_mut().zip(1..=names) {
        *call = Call::Name(v);
    }
    let mut last = seed;
    for call in calls.iter_mut().skip(usize::from(names) + 1) {
        last = next_chance(last);
        *call = call_by_chance(last);
    }
    calls
}

// A life beside the simple search.
fn beside<M: TwoWay + Drop, K: Zeroed>(rt: &impl Abort, map: M, names: u16) {
    let calls = calls_by_chance(names, 3 + u32::from(names));
    let mut answers = [Answer::Done; LIFE];
    let map = live::<M, K>(map, &calls, &mut answers);
    let mut at = Moment::first();
    for (call, answer) in calls.iter().zip(&answers) {
        let right = at.answer::<M, K>(&map, *call);
        assert_eq!(rt; bare(*answer), right.unwrap_or_else(Answer::Refused));
    }
}

// Lives with 0 to 16 transit nodes, in paces and in gates.
fn lives_over<M: TwoWay + Copy>(rt: &impl Abort, map: M) {
    for names in 0..=16 {
        beside::<M, Paces>(rt, map, names);
        beside::<M, Gates>(rt, map, names);
    }
}

#[test]
fn lives_over_sheets(rt: HostRuntime) -> Result<(), Fail> {
    for seed in 1..=3 {
        let slots = sparse(rt.alloc(), 60, seed)?;
        let bytes = drawn(rt.alloc(), 22, slots.as_slice())?;
        lives_over(&rt, map_of::<Sheet<'_>>(bytes.as_slice())?);
    }
    let slots = dense(rt.alloc(), 22, None)?;
    let bytes = drawn(rt.alloc(), 22, slots.as_slice())?;
    lives_over(&rt, map_of::<Sheet<'_>>(bytes.as_slice())?);
    Ok(())
}

#[test]
fn lives_over_blocks(rt: HostRuntime) -> Result<(), Fail> {
    for seed in 1..=3 {
        let bytes = block_by_chance(rt.alloc(), 6, 4, seed)?;
        lives_over(&rt, map_of::<Block<'_>>(bytes.as_slice())?);
    }
    Ok(())
}
