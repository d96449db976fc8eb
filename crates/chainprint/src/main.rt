// Reads the cut file `state.bin` and writes the chain of sites of its state, with threshold 1e-12 and bond limit 64, or `refused N P`. The list
// of the file is not looked at; a missing file counts as empty. What is put for the bytes that were read is `file_text`, a definition.
//   chain N
//   site J LEFT RIGHT                  of each site, then its cells
//   cell K RE IM                       the bits of both parts, sixteen hexadecimal digits each
//   cut J RANK SWEEPS yes|no TURNED    after each site but the last
//   dropped D
// A file has at most 9 qubits, so 2,384 numbers of sites, 1,024 of state and 3,104 of scratch are enough, and 73,016 bytes of text.
#![tactic(auto)]

ghost use Rattle.std.specs.Prelude.{◌≡◌, ◌≤◌, IfOk, length};
ghost use Rattle.cutfile.specs.Layout.{LongEnough};
ghost use Rattle.cutfile_result.specs.Result.{state_of};
ghost use Rattle.io.specs.Counts.{IsPrefixLen};
ghost use Rattle.texts.specs.Text.{Puts};
ghost use Rattle.chain_lines.specs.ChainLines.{ChainLaid};
ghost use Rattle.chainprint.specs.Printout.{told_text, state_text, file_text};

use answers::Refusal;
use std::rt::Files;

// Puts what the call answered, or the chain that it left.
fn put_told(
    out: &mut [u8],
    n: usize,
    made: Result<usize, Refusal>,
    sites: &[f64],
    bonds: &[usize],
    starts: &[usize],
    marks: &[usize],
) -> usize
    requires in_bounds { 50 ≤ length out.old }
    requires chain_laid { IfOk made (λ _. ChainLaid n sites.now bonds.now starts.now marks.now (length out.old)) }
    ensures puts { Puts 0 (told_text n made sites.now bonds.now starts.now marks.now)
        out.old result out.new }
    ensures prefix_len { IsPrefixLen result out.new }
{
    match made {
        Ok(dropped) => chain_lines::put_chain(out, n, dropped, sites, bonds, starts, marks),
        Err(refusal) => lines::put_refused(out, Err(refusal)),
    }
}

// Puts the chain of a state.
fn put_state(out: &mut [u8], state: &[f64], n: usize) -> usize
    requires { (n ≤ 9) × (length out.old ≡ 73016) }
    ensures puts { Puts 0 (state_text state.now n) out.old result out.new }
    ensures prefix_len { IsPrefixLen result out.new }
{
    let mut sites = [0.0f64; 2384];
    let mut bonds = [0usize; 10];
    let mut starts = [0usize; 10];
    let mut marks = [0usize; 24];
    let mut matrix = [0.0f64; 1024];
    let mut u = [0.0f64; 1024];
    let mut vt = [0.0f64; 1024];
    let mut scratch = [0.0f64; 3104];
    let made = chains::chain_of_sites(
        state,
        n,
        0.000000000001,
        64,
        &mut sites,
        &mut bonds,
        &mut starts,
        &mut marks,
        &mut matrix,
        &mut u,
        &mut vt,
        &mut scratch,
    );
    put_told(out, n, made, &sites, &bonds, &starts, &marks)
}

// The state of a file whose header was answered 0.
fn put_file(out: &mut [u8], file: &[u8], n: usize, k: usize) -> usize
    requires long_enough { LongEnough file.now n k }
    requires out_len { length out.old ≡ 73016 }
    ensures puts { Puts 0 (state_text (state_of file.now n k) n) out.old result out.new }
    ensures prefix_len { IsPrefixLen result out.new }
{
    let mut state = [0.0f64; 1024];
    decode::decode_state(file, n, k, &mut state);
    let components = 2 * cutfile::bit(n);
    put_state(out, &state[..components], n)
}

// Puts all that is written of the bytes of a file, and answers its length.
fn put_bytes(out: &mut [u8], file: &[u8]) -> usize
    requires { length out.old ≡ 73016 }
    ensures puts { Puts 0 (file_text file.now) out.old result out.new }
    ensures prefix_len { IsPrefixLen result out.new }
{
    match cutfile::check_header(file) {
        Ok(header) => put_file(out, file, header.n, header.k),
        Err(refusal) => lines::put_refused(out, Err(refusal)),
    }
}

// The bytes of `state.bin` at the front of buf, and how many there are: none where there is no such file.
fn read_file(files: &impl Files, buf: &mut [u8]) -> usize
    ensures { IsPrefixLen result buf.new }
{
    inputs::read_file(files, "state.bin", buf)
}

fn main(rt: HostRuntime) -> std::io::Result<()> {
    let mut file = [0u8; 8480];
    let got = read_file(&rt, &mut file);
    let mut text = [0u8; 73016];
    let length = put_bytes(&mut text, &file[..got]);
    rt.write_all(&text[..length])
}
