//! Works a script of commands on standard input, one a line: texts, addresses, stores and shelves, told on docs/script.md.
#![tactic(auto)]

use script_desk::work_script;

fn main(rt: HostRuntime) -> anyhow::Result<()> {
    work_script(&rt)
}
