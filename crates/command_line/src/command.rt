//! Commands.

ghost use Rattle.std.specs.Prelude.{◌≡◌, ◌≤◌, map, string_bytes, IfSome};
ghost use Rattle.command_line.specs.Command.{IsCommand, IsGeneration, IsSetting, asked, asked_compile, asked_gen, asked_net, asked_plan};
ghost use Rattle.command_line.specs.Command.{asked_run, asked_trial, generation_of, setting_after};

use crate::number::number_within;
use crate::options::{net_setting_from, options_of, setting_from};
use crate::setting::{NetSetting, Setting, Ways, ways_of};

/// The packets that the generator makes: how many, and the number that they are drawn from.
#[derive(Clone, Copy)]
pub struct Generation {
    pub packets: u32,
    pub start: u32,
}

/// What a command line asks for. Its operands are words by their places.
#[derive(Clone, Copy)]
pub enum Command {
    /// Writes the tables of a query over a trace, and before them a view after each this many packets: none where that is 0.
    Run(Setting, u32),
    /// Writes the stages of a query, and the bound on its steps for these ways.
    Plan(Ways),
    /// Writes the trace of the generator.
    Gen(Generation),
    /// Writes the tables of a fixed query over the generator's packets.
    Trial(Generation, Setting),
    /// Writes the tables of a query over a trace, where each switch has separate caches and all of them share one store.
    Net(NetSetting),
    /// Writes bounds of a query's folds over a trace, where they aren't exact.
    Enclose(Setting),
    /// Writes the plan of a query, as a text that can be run.
    Compile,
    /// Writes the tables of the text of a plan over a trace.
    RunPlan(Setting),
}

fn generation_of(packets: &String, start: &String) -> Option<Generation>
    ensures generation { result ≡ generation_of (string_bytes packets.now) (string_bytes start.now) }
    ensures within { IfSome result IsGeneration }
{
    let packets = number_within(1, 1_000_000, packets.as_bytes())?;
    let start = number_within(0, 2_147_483_647, start.as_bytes())?;
    Some(Generation { packets, start })
}

fn run_of(words: &[String]) -> Option<Command>
    ensures asked { result ≡ asked_run (map string_bytes words.now) }
    ensures within { IfSome result IsCommand }
{
    let (_query, more) = words.split_first()?;
    let (_trace, words) = more.split_first()?;
    let options = options_of(words)?;
    let setting = options.setting()?;
    Some(Command::Run(setting, options.every.unwrap_or(0)))
}

fn plan_of(words: &[String]) -> Option<Command>
    ensures asked { result ≡ asked_plan (map string_bytes words.now) }
    ensures within { IfSome result IsCommand }
{
    match words {
        [_query] => Some(Command::Plan(Ways::Eight)),
        [_query, name, value] if name.as_str() == "--ways" => {
            Some(Command::Plan(ways_of(value.as_bytes())?))
        }
        _ => None,
    }
}

fn gen_of(words: &[String]) -> Option<Command>
    ensures asked { result ≡ asked_gen (map string_bytes words.now) }
    ensures within { IfSome result IsCommand }
{
    match words {
        [packets, start] => Some(Command::Gen(generation_of(packets, start)?)),
        _ => None,
    }
}

fn trial_of(words: &[String]) -> Option<Command>
    ensures asked { result ≡ asked_trial (map string_bytes words.now) }
    ensures within { IfSome result IsCommand }
{
    let (packets, more) = words.split_first()?;
    let (start, options) = more.split_first()?;
    let generation = generation_of(packets, start)?;
    Some(Command::Trial(generation, setting_from(options)?))
}

fn net_of(words: &[String]) -> Option<Command>
    ensures asked { result ≡ asked_net (map string_bytes words.now) }
    ensures within { IfSome result IsCommand }
{
    let (_query, more) = words.split_first()?;
    let (_trace, options) = more.split_first()?;
    Some(Command::Net(net_setting_from(options)?))
}

// The setting that the words after two operands give.
fn setting_after(words: &[String]) -> Option<Setting>
    ensures setting { result ≡ setting_after (map string_bytes words.now) }
    ensures within { IfSome result IsSetting }
{
    let (_first, more) = words.split_first()?;
    let (_second, options) = more.split_first()?;
    setting_from(options)
}

fn compile_of(words: &[String]) -> Option<Command>
    ensures asked { result ≡ asked_compile (map string_bytes words.now) }
    ensures within { IfSome result IsCommand }
{
    match words {
        [_query] => Some(Command::Compile),
        _ => None,
    }
}

/// The command that the words ask for.
pub fn command_of(words: &[String]) -> Option<Command>
    ensures asked { result ≡ asked (map string_bytes words.now) }
    ensures within { IfSome result IsCommand }
{
    let (name, operands) = words.split_first()?;
    match name.as_str() {
        "run" => run_of(operands),
        "plan" => plan_of(operands),
        "gen" => gen_of(operands),
        "trial" => trial_of(operands),
        "net" => net_of(operands),
        "enclose" => Some(Command::Enclose(setting_after(operands)?)),
        "compile" => compile_of(operands),
        "run-plan" => Some(Command::RunPlan(setting_after(operands)?)),
        _ => None,
    }
}
