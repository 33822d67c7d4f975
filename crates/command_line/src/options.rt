//! Options, as pairs of words.

ghost use Rattle.std.specs.Prelude.{◌≡◌, ◌≤◌, ◌*◌, map, string_bytes, IfSome, ⊤};
ghost use Rattle.command_line.specs.Command.{IsSetting, IsNetSetting, is_new, no_options, with_option, options_from, setting_of};
ghost use Rattle.command_line.specs.Command.{setting_from, net_setting_of, net_setting_from, AreWithin};

use crate::number::number_within;
use crate::setting::{NetSetting, Setting, Ways, ways_of};

/// The options that were named so far.
#[derive(Clone, Copy)]
pub(crate) struct Options {
    pub(crate) buckets: Option<u32>,
    pub(crate) ways: Option<Ways>,
    pub(crate) pipe: Option<u32>,
    pub(crate) lag: Option<u32>,
    pub(crate) refresh: Option<u32>,
    pub(crate) every: Option<u32>,
}

const NO_OPTIONS: Options = Options {
    buckets: None,
    ways: None,
    pipe: None,
    lag: None,
    refresh: None,
    every: None,
};

fn is_new<T>(option: &str, name: &String, value: &Option<T>) -> bool
    ensures { result ≡ is_new option.now (string_bytes name.now) value.now }
{
    name.as_str() == option && value.is_none()
}

impl Options {
    // The options with one more, which must not be set yet.
    fn with(self, name: &String, value: &String) -> Option<Options>
        requires within { AreWithin self }
        ensures with_option { result ≡ with_option self (string_bytes name.now) (string_bytes value.now) }
        ensures within { IfSome result AreWithin }
    {
        let text = value.as_bytes();
        let mut options = self;
        if is_new("--buckets", name, &self.buckets) {
            options.buckets = Some(number_within(1, 65_536, text)?);
        } else if is_new("--ways", name, &self.ways) {
            options.ways = Some(ways_of(text)?);
        } else if is_new("--pipe", name, &self.pipe) {
            options.pipe = Some(number_within(1, 65_536, text)?);
        } else if is_new("--lag", name, &self.lag) {
            options.lag = Some(number_within(1, 1_000_000, text)?);
        } else if is_new("--refresh", name, &self.refresh) {
            options.refresh = Some(number_within(0, 4_194_304, text)?);
        } else if is_new("--every", name, &self.every) {
            options.every = Some(number_within(0, 4_194_304, text)?);
        } else {
            return None;
        }
        Some(options)
    }

    // What they give for caches and pipes, where a cache has few enough places.
    pub(crate) fn setting(self) -> Option<Setting>
        requires within { AreWithin self }
        ensures setting { result ≡ setting_of self }
        ensures within { IfSome result IsSetting }
    {
        let buckets = self.buckets.unwrap_or(1024);
        let ways = self.ways.unwrap_or(Ways::Eight);
        if u64::from(buckets) * u64::from(ways.number()) > 65_536 {
            return None;
        }
        Some(Setting {
            buckets,
            ways,
            pipe: self.pipe.unwrap_or(64),
            lag: self.lag.unwrap_or(1),
            refresh: self.refresh.unwrap_or(0),
        })
    }

    // What they give for the caches and pipes of each of several switches, where these are small enough, and nothing else
    // is given.
    fn net_setting(self) -> Option<NetSetting>
        requires within { AreWithin self }
        ensures setting { result ≡ net_setting_of self }
        ensures within { IfSome result IsNetSetting }
    {
        let buckets = self.buckets.unwrap_or(64);
        let ways = self.ways.unwrap_or(Ways::Eight);
        let pipe = self.pipe.unwrap_or(64);
        if self.refresh.is_some()
            || self.every.is_some()
            || u64::from(buckets) * u64::from(ways.number()) > 1024
            || pipe > 1024
        {
            return None;
        }
        Some(NetSetting {
            buckets,
            ways,
            pipe,
            lag: self.lag.unwrap_or(1),
        })
    }
}

/// The options that pairs of words name.
pub(crate) fn options_of(words: &[String]) -> Option<Options>
    ensures options { result ≡ options_from no_options (map string_bytes words.now) }
    ensures within { IfSome result AreWithin }
{
    let mut options = NO_OPTIONS;
    let mut left = words;
    'pairs: while let Some((name, more)) = left.split_first() {
        let (value, rest) = more.split_first()?;
        options = options.with(name, value)?;
        left = rest;
    }
    Some(options)
}

/// The setting that pairs of words give, where they name no views.
pub(crate) fn setting_from(words: &[String]) -> Option<Setting>
    ensures setting { result ≡ setting_from (map string_bytes words.now) }
    ensures within { IfSome result IsSetting }
{
    let options = options_of(words)?;
    if options.every.is_some() {
        return None;
    }
    options.setting()
}

/// The setting of each of several switches that pairs of words give.
pub(crate) fn net_setting_from(words: &[String]) -> Option<NetSetting>
    ensures setting { result ≡ net_setting_from (map string_bytes words.now) }
    ensures within { IfSome result IsNetSetting }
{
    options_of(words)?.net_setting()
}
