// The program: an image as bytes on standard input, its yearly playing-time report on standard output.
#![tactic(auto)]

fn main(rt: HostRuntime) {
    // a byte more than the largest image has: of a longer input no more need be read
    let mut input: [u8; 13857] = [0; 13857];
    let mut image: [u64; 1732] = [0; 1732];
    let mut output: [u8; 320] = [0; 320];
    let have = feed::read_full(rt.stdin(), &mut input);
    let n = sheet::put_sheet(&mut output, &mut image, &input[..have]);
    if rt.stdout().write_all(&output[..n]).is_err() {
        let _ = rt
            .stderr()
            .write_all(b"reelreport: the report could not be written\n");
    }
}
