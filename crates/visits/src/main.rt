// Meters worth a visit: the plant file from standard input, a line for each A stream to standard output. What goes wrong in reading or
// writing is said on standard error, in one line.
#![tactic(auto)]

use visit_text::LEAST_TEXT;

fn main(rt: HostRuntime) {
    let errors = rt.stderr();
    let fed = programs::plant_file(&rt, &errors, b"visits");
    if fed.taken {
        let mut text = [0u8; LEAST_TEXT];
        let end = visit_text::list_visits(&fed.file[..fed.size], &mut text);
        programs::put_text(&rt, &errors, b"visits", &text[..end]);
    }
}
