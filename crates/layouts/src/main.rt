// The survey of meter layouts: the plant file from standard input, a line for each k to standard output. What goes wrong in reading or
// writing is said on standard error, in one line.
#![tactic(auto)]

use survey_answers::LEAST_TEXT;

fn main(rt: HostRuntime) {
    let errors = rt.stderr();
    let fed = programs::plant_file(&rt, &errors, b"layouts");
    if fed.taken {
        let mut text = [0u8; LEAST_TEXT];
        let end = survey_answers::list_layouts(&fed.file[..fed.size], &mut text);
        programs::put_text(&rt, &errors, b"layouts", &text[..end]);
    }
}
