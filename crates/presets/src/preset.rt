//! The presets, and how they are named.
ghost use Rattle.std.specs.Prelude.{◌≡◌, IfSome, IsNone};
ghost use Rattle.presets.specs.Presets.{word_of};
ghost use Rattle.presets.specs.declared.preset.Preset.{Preset as AnyPreset};

/// Whose settings a scenario begins with.
#[derive(Clone, Copy, Debug, PartialEq, Eq)]
pub enum Preset {
    /// Memberlist's on one machine.
    Local,
    /// Memberlist's in one data centre.
    Lan,
    /// Memberlist's between data centres.
    Wan,
    /// Serf's in one data centre.
    Serf,
    /// Serf's between data centres.
    SerfWan,
    /// Consul's in one data centre.
    Consul,
    /// Consul's between data centres.
    ConsulWan,
    /// The format's own, by the rules of the papers on SWIM and Lifeguard.
    Swim,
}

impl Preset {
    /// The preset of this name: `local`, `lan`, `wan`, `serf`, `serf-wan`, `consul`, `consul-wan` or `swim`.
    pub fn named(word: &str) -> Option<Preset>
        ensures some { IfSome result (λ preset. word_of preset ≡ word.now) }
        ensures none { IsNone result → (preset : AnyPreset) → ¬ (word_of preset ≡ word.now) }
    {
        match word {
            "local" => Some(Preset::Local),
            "lan" => Some(Preset::Lan),
            "wan" => Some(Preset::Wan),
            "serf" => Some(Preset::Serf),
            "serf-wan" => Some(Preset::SerfWan),
            "consul" => Some(Preset::Consul),
            "consul-wan" => Some(Preset::ConsulWan),
            "swim" => Some(Preset::Swim),
            _ => None,
        }
    }
}
