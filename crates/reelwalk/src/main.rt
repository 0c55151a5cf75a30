// The program: a walk through the step stream on standard input, its lines on standard output.
#![tactic(auto)]

fn main(rt: HostRuntime) {
    let mut input = io::large_buffer();
    let mut output = io::large_buffer();
    let mut image: [u64; 1732] = [0; 1732];
    let mut before: [u64; 1732] = [0; 1732];
    let mut trace: [u64; 48] = [0; 48];
    // zeros are no image: the desk of a refused opening
    let none = store::open(&mut image, &mut trace);
    walk::run(
        &rt,
        &mut input,
        &mut image,
        &mut before,
        &mut trace,
        &mut output,
        none.desk,
        0,
        false,
    );
}
