// A host in small: one record, one session, from lay to reclaim. README.md says what a host does.
#![tactic(auto)]

// The host's own: it makes the first `entries` pairs of the trace durable, in order. Here nothing is behind the image.
fn carry_out(trace: &[u64], entries: u64) {}

fn main() {
    let mut image: [u64; 52] = [0; 52];
    let mut trace: [u64; 48] = [0; 48];
    let _ = store::lay(&mut image, 1, 1);
    let o = store::open(&mut image, &mut trace);
    carry_out(&trace, o.entries);
    let b = o.desk.begin(0);
    let w = store::write(&image, b.desk, 0, 0, [5, 6, 7, 8]);
    let f = store::finish(&mut image, w.desk, &mut trace, 0);
    carry_out(&trace, f.entries);
    let p = f.desk.publish(&mut image, &mut trace, 0);
    carry_out(&trace, p.entries);
    let s = store::settle(&mut image, p.desk, &mut trace, 0);
    carry_out(&trace, s.entries);
    let r = store::reclaim(&mut image, s.desk, &mut trace, 0);
    carry_out(&trace, r.entries);
}
