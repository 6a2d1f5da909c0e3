// Plays the bench cases on running chips, shows what they answer, and checks it.
#![tactic(auto)]

mod bench;
mod byte_cases;
mod case;
mod defect_cases;
mod doubting_cases;
mod expected;
mod lock_cases;

fn main(rt: HostRuntime) -> anyhow::Result<()> {
    byte_cases::run(&rt)?;
    doubting_cases::run(&rt)?;
    lock_cases::run(&rt)?;
    defect_cases::run(&rt)
}
