// Builds the plan, and asks the index.
use lengths::Zeroed;
use maps::TwoWay;
use oracle::Plan;

pub fn one_answer<M: TwoWay, K: Zeroed>(map: M) -> M {
    let plan = Plan::<M, K>::new(map);
    let mut index = plan.build();
    let _ = index.ask(1, 1);
    index.into_map()
}
