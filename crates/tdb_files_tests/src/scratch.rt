use std::test::Fail;
use std::{env, process};

// The path of a file that one test makes.
pub(crate) fn scratch(rt: &HostRuntime, name: &str) -> Result<String, Fail> {
    let id = process::id(rt.process());
    let file = format!(in rt.alloc(); "tdb-{id}-{name}")?;
    let mut path = env::temp_dir(rt)?;
    path.push(file.as_str())?;
    Ok(path.into_string())
}
