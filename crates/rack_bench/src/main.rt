// The bench program of a rack: what it does is the crate rack_run's.
#![tactic(auto)]

fn main(rt: HostRuntime) {
    let mut from = rt.stdin();
    let mut to = rt.stdout();
    let mut err = rt.stderr();
    rack_run::run(&mut from, &mut to, &mut err);
}
