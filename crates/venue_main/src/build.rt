//! What is known of the build of this program.

use crate::files::text_of;
use std::alloc::Global;
use std::fs;
use std::io::Read;

/// The first line of the file that stands at the program's path with `.build` behind it, where there is one: who built
/// the program wrote there its commit, its kit, and whether it was proved. The program's own text cannot say so.
pub fn build_line(rt: &HostRuntime) -> Option<String> {
    let program = fs::read_link(rt, "/proc/self/exe").ok()?.into_string();
    let path = format!(in rt.alloc(); "{program}.build").ok()?;
    line_in(rt.alloc(), fs::open(rt, path.as_str()).ok()?)
}

fn line_in<R: Read + Drop>(alloc: Global, file: R) -> Option<String> {
    let text = String::from_utf8(text_of(alloc, file).ok()?).ok()?;
    match text.split_once("\n") {
        Some((line, _)) => String::from_str(alloc, line).ok(),
        None => None,
    }
}
