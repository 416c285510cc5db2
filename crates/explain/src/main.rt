// The bench program that names the rule behind each NoAck, error reply and silence.
#![tactic(auto)]

fn main(rt: HostRuntime) {
    let mut from = rt.stdin();
    let mut to = rt.stdout();
    let mut err = rt.stderr();
    bench_run::run(&mut from, &mut to, &mut err, true);
}
