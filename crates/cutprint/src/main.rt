// Reads `state.bin` and writes its certificate, or `refused N P`. A missing file counts as empty. The buffer is longer than any
// valid file, so a file that is longer still is read as one that is too long, and is not cut to fit: its certificate is the same.
#![tactic(auto)]

fn main(rt: HostRuntime) -> std::io::Result<()> {
    let mut file = [0u8; 8480];
    let got = inputs::read_file(&rt, "state.bin", &mut file);
    let mut text = [0u8; 2048];
    let length = certificates::certificate(&file[..got], &mut text);
    rt.write_all(&text[..length])
}
