// Plans the index anew, and names a junction in the plan.
use lengths::Zeroed;
use maps::TwoWay;
use oracle::Plan;

pub fn one_more<M: TwoWay, K: Zeroed>(map: M) -> M {
    let plan = Plan::<M, K>::new(map);
    let index = plan.build();
    let mut plan = index.replan();
    let _ = plan.name(1);
    plan.into_map()
}
