//! Works the script on standard input: the edges of every call of the browser, over both stores and both shelves.
#![tactic(auto)]

use script_desk::work_script;

fn main(rt: HostRuntime) -> anyhow::Result<()> {
    work_script(&rt)
}
