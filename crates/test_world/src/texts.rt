//! Actions by their texts.
use std::alloc::Global;
use std::test::Fail;
use sv_text::parse_action;
use sv_world::Action;

pub fn action_of(alloc: Global, text: &str) -> Result<Action, Fail> {
    if text.len() > 1_000 {
        return Err(Fail::new("the text is too long"));
    }
    Ok(parse_action(alloc, text)?)
}
