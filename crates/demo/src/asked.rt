// The items that the arguments ask for.
use anyhow::Context;
use std::env;
use std::env::{Env, FillError};

// Whether nothing follows the program's name, which is not read: it may be any bytes.
fn is_alone(rt: &HostRuntime) -> bool {
    matches!(rt.arg(1, &mut []), Err(FillError::NotPresent))
}

// Those of all arguments but the first, which is the program's name.
pub fn asked_items(rt: &HostRuntime) -> anyhow::Result<Vec<u32>> {
    let mut items = Vec::new(rt.alloc());
    if is_alone(rt) {
        return Ok(items);
    }
    for argument in env::args(rt)?.skip(1) {
        let item = argument
            .parse::<u32>()
            .context(format_args!("{argument:?} is no item number"))?;
        items.push(item)?;
    }
    Ok(items)
}
