// A tour: a drawing set and two offices. Recorded histories are followed event by event, the check says which arrangement
// the offices' boxes can keep, and a session lets them vote.

#![tactic(auto)]

mod boxes;
mod decision;
mod office;
mod story;

fn main(rt: HostRuntime) -> anyhow::Result<()> {
    tell(&rt)
}

fn tell(rt: &HostRuntime) -> anyhow::Result<()> {
    story::tell(rt)?;
    decision::tell(rt)?;
    boxes::tell(rt)
}
