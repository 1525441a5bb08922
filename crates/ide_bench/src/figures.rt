//! Numbers by their names, as they are printed.
use anyhow::Result;

/// A number, behind its name.
pub(crate) type Figure = (&'static str, u64);

/// Prints the numbers on one line, each behind its name.
pub(crate) fn print_figures(rt: &HostRuntime, figures: &[Figure]) -> Result<()> {
    let mut gap = "";
    for (name, number) in figures {
        print!(rt; "{gap}{name} {number}")?;
        gap = " ";
    }
    println!(rt)?;
    Ok(())
}
