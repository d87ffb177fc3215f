// The listing of a plant: the plant file from standard input, its listing to standard output. What goes wrong in reading or
// writing is said on standard error, in one line.
#![tactic(auto)]

use listing_call::LEAST_TEXT;

fn main(rt: HostRuntime) {
    let errors = rt.stderr();
    let fed = programs::plant_file(&rt, &errors, b"balance");
    if fed.taken {
        let mut text = [0u8; LEAST_TEXT];
        let end = listing_call::list_plant(&fed.file[..fed.size], &mut text);
        programs::put_text(&rt, &errors, b"balance", &text[..end]);
    }
}
