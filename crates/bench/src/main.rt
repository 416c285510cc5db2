// The bench program: what it does is the crate bench_run's.
#![tactic(auto)]

fn main(rt: HostRuntime) {
    let mut from = rt.stdin();
    let mut to = rt.stdout();
    let mut err = rt.stderr();
    bench_run::run(&mut from, &mut to, &mut err, false);
}
