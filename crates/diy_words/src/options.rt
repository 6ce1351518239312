ghost use Rattle.std.specs.Prelude.{◌≡◌};
ghost use Rattle.diy_words.specs.declared.options.Tool.TheVariants as tools;
ghost use Rattle.diy_words.specs.Parts.{tool_named, option_named, mode_named};

use relax_edges::ObsMode;

/// The tools that the first argument can name.
#[derive(Clone, Copy)]
pub enum Tool {
    DiyOne,
    Diy,
    Cross,
    Norm,
    Classify,
    Msum,
    Demo,
    Check,
}

/// The options of the tools that take a value.
#[derive(Clone, Copy)]
pub enum OptionName {
    Arch,
    Name,
    Obs,
    From,
    Edges,
    Size,
    Nprocs,
    Accesses,
    After,
    Folder,
}

/// The tool with this name.
pub fn tool_named(text: &str) -> Option<Tool>
    ensures { result ≡ tool_named text.now }
{
    match text {
        "diyone7" => Some(Tool::DiyOne),
        "diy7" => Some(Tool::Diy),
        "diycross7" => Some(Tool::Cross),
        "norm7" => Some(Tool::Norm),
        "classify7" => Some(Tool::Classify),
        "msum7" => Some(Tool::Msum),
        "demo" => Some(Tool::Demo),
        "mcheck7" => Some(Tool::Check),
        _ => None,
    }
}

/// The option of a tool that has this name and takes a value.
pub fn option_named(tool: Tool, text: &str) -> Option<OptionName>
    ensures { result ≡ option_named tool text.now }
{
    match tool {
        Tool::DiyOne => diyone_option(text),
        Tool::Diy => diy_option(text),
        Tool::Cross => cross_option(text),
        Tool::Norm => norm_option(text),
        Tool::Classify | Tool::Demo | Tool::Check => arch_option(text),
        Tool::Msum => None,
    }
}

fn diyone_option(text: &str) -> Option<OptionName>
    ensures { result ≡ option_named tools.DiyOne text.now }
{
    match text {
        "-arch" => Some(OptionName::Arch),
        "-from" => Some(OptionName::From),
        "-name" => Some(OptionName::Name),
        "-obs" => Some(OptionName::Obs),
        "-o" => Some(OptionName::Folder),
        _ => None,
    }
}

fn diy_option(text: &str) -> Option<OptionName>
    ensures { result ≡ option_named tools.Diy text.now }
{
    match text {
        "-arch" => Some(OptionName::Arch),
        "-edges" => Some(OptionName::Edges),
        "-size" => Some(OptionName::Size),
        "-nprocs" => Some(OptionName::Nprocs),
        "-accesses" => Some(OptionName::Accesses),
        "-obs" => Some(OptionName::Obs),
        "-after" => Some(OptionName::After),
        "-o" => Some(OptionName::Folder),
        _ => None,
    }
}

fn cross_option(text: &str) -> Option<OptionName>
    ensures { result ≡ option_named tools.Cross text.now }
{
    match text {
        "-arch" => Some(OptionName::Arch),
        "-obs" => Some(OptionName::Obs),
        "-o" => Some(OptionName::Folder),
        _ => None,
    }
}

/// The option with this name of a tool that has only `-arch`.
fn arch_option(text: &str) -> Option<OptionName>
    ensures { result ≡ option_named tools.Classify text.now }
{
    match text {
        "-arch" => Some(OptionName::Arch),
        _ => None,
    }
}

fn norm_option(text: &str) -> Option<OptionName>
    ensures { result ≡ option_named tools.Norm text.now }
{
    match text {
        "-arch" => Some(OptionName::Arch),
        "-from" => Some(OptionName::From),
        _ => None,
    }
}

/// The observer mode with this name.
pub fn mode_named(text: &str) -> Option<ObsMode>
    ensures { result ≡ mode_named text.now }
{
    match text {
        "accept" => Some(ObsMode::Accept),
        "avoid" => Some(ObsMode::Avoid),
        "force" => Some(ObsMode::Force),
        _ => None,
    }
}
