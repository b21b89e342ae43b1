// Figures to read and cases to run: placing tables, every member of large layouts there and back,
// numbers at the edges of the tables and out of range, and the text of every denial.
#![tactic(auto)]

mod denials;
mod placing;

fn main(rt: HostRuntime) -> anyhow::Result<()> {
    placing::tables(&rt)?;
    placing::round_trips(&rt)?;
    placing::edges(&rt)?;
    placing::out_of_range(&rt)?;
    denials::list(&rt)
}
