// What each shelf answers to tables of calls: a memory shelf, scripts of faults, fault shelves one over another, and shelves
// that always fault.
#![tactic(auto)]

mod broken;
mod call;
mod fault;
mod memory;
mod script;

fn main(rt: HostRuntime) -> anyhow::Result<()> {
    let heap = rt.alloc();
    println!(rt; "Each line is a call, its answer, and the disks that are marked after it.")?;
    memory::places(&rt, heap)?;
    memory::changes(&rt, heap)?;
    memory::out_of_range(&rt, heap)?;
    memory::without_disks(&rt, heap)?;
    script::edges(&rt)?;
    script::room(&rt)?;
    fault::causes(&rt, heap)?;
    fault::counts(&rt, heap)?;
    fault::stacked(&rt, heap)?;
    broken::codes(&rt, heap)?;
    broken::below(&rt, heap)
}
