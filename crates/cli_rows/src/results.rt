//! Files that results go to, and files that can't be opened: what `-o` promises, and the reasons that are told.

use crate::Fault;
use crate::on_disk::status_on_disk;
use base::VecSink;
use command_line::order;
use commands::SystemFiles;
use std::os::unix::fs::{PermissionsExt, symlink};
use std::{fs, io};

/// A model, and what `show` writes of it.
const MODEL: &str = "1 sort bitvec 1\n2 input  1\n3 bad 2\n";

const SHOWN: &str =
    "1 sort bitvec 1\n2 input 1\n3 bad 2\n; 3 items, 1 inputs, 0 states, 1 bad, 0 constraints\n";

/// The bits of a mode that say who may read and write.
const WHO_MAY: u32 = 0o777;

/// Whether a command of these words ends with a status and tells this.
fn tells(rt: &HostRuntime, words: &[&str], status: u8, told: &str) -> bool {
    let mut out = VecSink::new(rt.alloc());
    let mut err = VecSink::new(rt.alloc());
    let files = SystemFiles::new(rt, 1);
    match order(rt.alloc(), words) {
        Ok(order) => {
            let ended = status_on_disk(rt, &files, &order, b"", &mut out, &mut err);
            ended == status && err.bytes() == told.as_bytes()
        }
        Err(_) => false,
    }
}

/// Whether a file has this text.
fn has(rt: &HostRuntime, name: &str, text: &str) -> bool {
    match fs::read(rt, name) {
        Ok(bytes) => bytes.as_slice() == text.as_bytes(),
        Err(_) => false,
    }
}

/// Whether nothing stands at a name.
fn is_free(rt: &HostRuntime, name: &str) -> bool {
    fs::symlink_metadata(rt, name).is_err()
}

/// Whether a link stands at a name.
fn is_link(rt: &HostRuntime, name: &str) -> bool {
    match fs::symlink_metadata(rt, name) {
        Ok(about) => about.is_symlink(),
        Err(_) => false,
    }
}

/// Who may read and write a file.
fn mode(rt: &HostRuntime, name: &str) -> Option<u32> {
    match fs::metadata(rt, name) {
        Ok(about) => Some(about.permissions().mode() & WHO_MAY),
        Err(_) => None,
    }
}

/// Sets who may read and write a file.
fn set_mode(rt: &HostRuntime, name: &str, mode: u32) -> io::Result<()> {
    let mut permissions = fs::metadata(rt, name)?.permissions();
    permissions.set_mode(mode);
    fs::set_permissions(rt, name, permissions)
}

/// A new result, one in place of another, whose mode is kept, and one in place of the file that is read.
fn fault_of_files(rt: &HostRuntime) -> io::Result<Fault> {
    fs::write(rt, "f.model", MODEL)?;
    if !tells(rt, &["show", "-o", "f.new", "f.model"], 0, "") || !has(rt, "f.new", SHOWN) {
        return Ok(Some("a new file"));
    }
    if !is_free(rt, "f.new.1.part") {
        return Ok(Some("a part is left of a result"));
    }
    fs::write(
        rt,
        "f.old",
        "of before, and longer than what takes its place, whatever that is, as it is short",
    )?;
    set_mode(rt, "f.old", 0o640)?;
    if !tells(rt, &["show", "-o", "f.old", "f.model"], 0, "") || !has(rt, "f.old", SHOWN) {
        return Ok(Some("a file that is replaced"));
    }
    if mode(rt, "f.old") != Some(0o640) {
        return Ok(Some("the mode of a file that is replaced"));
    }
    if !tells(rt, &["show", "-o", "f.model", "f.model"], 0, "") || !has(rt, "f.model", SHOWN) {
        return Ok(Some("a file that is read and replaced"));
    }
    Ok(None)
}

/// Links, of which the last leads to no file.
fn fault_of_links(rt: &HostRuntime) -> io::Result<Fault> {
    fs::write(rt, "f.model", MODEL)?;
    symlink(rt, "f.model", "f.alias")?;
    if !tells(rt, &["show", "-o", "f.alias", "f.model"], 0, "") || !has(rt, "f.model", SHOWN) {
        return Ok(Some("a link to the file that is read"));
    }
    fs::create_dir(rt, "f.folder")?;
    symlink(rt, "f.folder/next", "f.first")?;
    symlink(rt, "../f.end", "f.folder/next")?;
    if !tells(rt, &["show", "-o", "f.first", "f.model"], 0, "") || !has(rt, "f.end", SHOWN) {
        return Ok(Some("links that lead to no file"));
    }
    if !is_link(rt, "f.alias") || !is_link(rt, "f.first") || !is_link(rt, "f.folder/next") {
        return Ok(Some("a link that is replaced"));
    }
    symlink(rt, "f.turn", "f.turn")?;
    if !tells(
        rt,
        &["show", "-o", "f.turn", "f.model"],
        3,
        "f.turn: device: too many links\n",
    ) {
        return Ok(Some("a link to itself"));
    }
    Ok(None)
}

/// Names of parts that are there: a file's and a link's; and a name with no room for that of a part.
fn fault_of_parts(rt: &HostRuntime) -> io::Result<Fault> {
    fs::write(rt, "f.model", MODEL)?;
    fs::write(rt, "f.kept.1.part", "kept")?;
    symlink(rt, "f.beyond", "f.kept.1.1.part")?;
    if !tells(rt, &["show", "-o", "f.kept", "f.model"], 0, "") || !has(rt, "f.kept", SHOWN) {
        return Ok(Some("a file beside one that has the name of a part"));
    }
    if !has(rt, "f.kept.1.part", "kept") || !is_free(rt, "f.beyond") {
        return Ok(Some("a file that has the name of a part"));
    }
    let mut long = String::new(rt.alloc());
    for _ in 0..25 {
        long.push_str("tenletters")?;
    }
    let name = long.as_str();
    if !tells(rt, &["show", "-o", name, "f.model"], 0, "") || !has(rt, name, SHOWN) {
        return Ok(Some("a long name"));
    }
    Ok(None)
}

/// Inputs that are refused, or are not there, and files that can't be written.
fn fault_of_refusals(rt: &HostRuntime) -> io::Result<Fault> {
    fs::write(rt, "f.bad", "1 sort bitvec 0\n")?;
    fs::write(rt, "f.stays", "as it was")?;
    let told = "f.bad: line 1: 5 WidthOutOfRange\n";
    if !tells(rt, &["show", "-o", "f.stays", "f.bad"], 2, told)
        || !has(rt, "f.stays", "as it was")
    {
        return Ok(Some("the result of an input that is refused"));
    }
    if !is_free(rt, "f.stays.1.part") {
        return Ok(Some("a part is left of no result"));
    }
    let told = "f.gone: device: no such file\n";
    if !tells(rt, &["show", "--quiet", "f.gone"], 3, told) {
        return Ok(Some("an input that is not there"));
    }
    let told = "f.?gone: device: no such file\n";
    if !tells(rt, &["show", "f.\ngone"], 3, told) {
        return Ok(Some("a name with a line feed"));
    }
    if !tells(rt, &["show", "."], 3, ".: device: is a folder\n") {
        return Ok(Some("an input that is a folder"));
    }
    fs::write(rt, "f.model", MODEL)?;
    if !tells(
        rt,
        &["show", "-o", ".", "f.model"],
        3,
        ".: device: is a folder\n",
    ) {
        return Ok(Some("a result that is to take the place of a folder"));
    }
    let told = "f.gone/x: device: no such file\n";
    if !tells(rt, &["show", "-o", "f.gone/x", "f.model"], 3, told) {
        return Ok(Some("a result in a folder that is not there"));
    }
    let told = "/dev/full: device: no space left\n";
    if !tells(rt, &["show", "-o", "/dev/full", "f.model"], 3, told) {
        return Ok(Some("a result that goes to a full device"));
    }
    Ok(None)
}

/// A file that may not be written stays as it is, where its folder may be written. It tells nothing where the user may
/// write all files.
fn fault_of_modes(rt: &HostRuntime) -> io::Result<Fault> {
    fs::write(rt, "f.fixed", "fixed")?;
    set_mode(rt, "f.fixed", 0o444)?;
    if fs::OpenOptions::new()
        .write(true)
        .open(rt, "f.fixed")
        .is_ok()
    {
        return Ok(None);
    }
    let told = "f.fixed: device: permission denied\n";
    if !tells(rt, &["show", "-o", "f.fixed", "f.model"], 3, told) || !has(rt, "f.fixed", "fixed") {
        return Ok(Some("a file that may not be written"));
    }
    Ok(None)
}

/// What is not as it should be of the files of results. It makes files in the folder that it runs in, whose names begin with
/// `f.`.
pub(crate) fn fault_of_results(rt: &HostRuntime) -> io::Result<Fault> {
    if let Some(fault) = fault_of_files(rt)? {
        return Ok(Some(fault));
    }
    if let Some(fault) = fault_of_links(rt)? {
        return Ok(Some(fault));
    }
    if let Some(fault) = fault_of_parts(rt)? {
        return Ok(Some(fault));
    }
    if let Some(fault) = fault_of_refusals(rt)? {
        return Ok(Some(fault));
    }
    fault_of_modes(rt)
}
