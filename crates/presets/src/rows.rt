//! The lines of the presets' texts, section by section.
ghost use Rattle.presets.specs.Rows.{AreRows};
ghost use Rattle.presets.specs.Texts.{cluster_of, gossip_of, no_settings, probing_of, suspicion_of};

/// A line of the texts: what it sets, and words on it, for a comment.
#[derive(Clone, Copy)]
pub(crate) enum Row {
    /// The same in each preset.
    Same(&'static str, &'static str),
    /// The same in each of version 4 of the format.
    Newer(&'static str, &'static str),
    /// The same in each of Serf's and Consul's.
    Serf(&'static str, &'static str),
    /// A key and its value, by where members are.
    Each(&'static str, Values, &'static str),
    /// A key and its value, by whose program they run.
    Owner(&'static str, Owners, &'static str),
}

/// The value of a key in the presets of each program: none where its presets don't have the key.
#[derive(Clone, Copy)]
pub(crate) struct Owners {
    pub(crate) memberlist: Option<&'static str>,
    pub(crate) serf: &'static str,
    pub(crate) consul: &'static str,
    pub(crate) consul_wan: &'static str,
}

/// The value of a key on one machine, in one data centre, between data centres, and in the papers' preset.
#[derive(Clone, Copy)]
pub(crate) struct Values {
    pub(crate) local: &'static str,
    pub(crate) lan: &'static str,
    pub(crate) wan: &'static str,
    /// None where the key came after version 2.
    pub(crate) swim: Option<&'static str>,
}

/// The lines on how long a run is, and how members probe.
pub(crate) fn probing_rows() -> [Row; 17]
    ensures { AreRows probing_of result }
{
    PROBING_ROWS
}

/// The lines on suspicions, and on how members judge themselves.
pub(crate) fn suspicion_rows() -> [Row; 11]
    ensures { AreRows suspicion_of result }
{
    SUSPICION_ROWS
}

/// The lines on gossip and streams, and on Serf.
pub(crate) fn gossip_rows() -> [Row; 20]
    ensures { AreRows gossip_of result }
{
    GOSSIP_ROWS
}

/// The lines on the links, the members and a crash.
pub(crate) fn cluster_rows() -> [Row; 16]
    ensures { AreRows cluster_of result }
{
    CLUSTER_ROWS
}

/// The lines on what else may happen: comments alone, of leaves and slow times.
pub(crate) fn leave_rows() -> [Row; 12]
    ensures { AreRows no_settings result }
{
    LEAVE_ROWS
}

/// The lines on restarts and blocked members: comments alone.
pub(crate) fn restart_rows() -> [Row; 10]
    ensures { AreRows no_settings result }
{
    RESTART_ROWS
}

/// The lines on what may happen to the links, and on pauses: comments alone.
pub(crate) fn cut_rows() -> [Row; 17]
    ensures { AreRows no_settings result }
{
    CUT_ROWS
}

/// The lines on how long a run is, and how members probe.
const PROBING_ROWS: [Row; 17] = [
    Row::Same("", "A tick stands for a millisecond here. To run it:"),
    Row::Same("", "  swimsim run FILE --trace TRACE --report REPORT"),
    Row::Newer(
        "",
        "Failed probes, suspicions and false deaths are those of memberlist 0.2.2 to 0.5.0 within 10 %.",
    ),
    Row::Serf(
        "",
        "How a cluster heals after a cut is measured beside Serf 0.9.4, with its own code.",
    ),
    Row::Each(
        "version = ",
        Values {
            local: "4",
            lan: "4",
            wan: "4",
            swim: Some("2"),
        },
        "4: memberlist's rules; 1 and 2: those of the papers on SWIM and Lifeguard",
    ),
    Row::Same(
        "seed = 1",
        "all chance comes from it; another seed is another run of the same cluster",
    ),
    Row::Each(
        "end = ",
        Values {
            local: "120000",
            lan: "120000",
            wan: "300000",
            swim: Some("120000"),
        },
        "the last tick",
    ),
    Row::Same("", ""),
    Row::Same("[swim]", ""),
    Row::Each(
        "period = ",
        Values {
            local: "1000",
            lan: "1000",
            wan: "5000",
            swim: Some("1000"),
        },
        "ticks from one probe of a member to its next (ProbeInterval)",
    ),
    Row::Each(
        "timeout = ",
        Values {
            local: "200",
            lan: "500",
            wan: "3000",
            swim: Some("300"),
        },
        "ticks that a ping may go unanswered (ProbeTimeout)",
    ),
    Row::Each(
        "helpers = ",
        Values {
            local: "1",
            lan: "3",
            wan: "3",
            swim: Some("3"),
        },
        "how many others are then asked to ping the target (IndirectChecks)",
    ),
    Row::Newer(
        "fallback = true",
        "whether it is called over a stream then, too (not DisableTcpPings)",
    ),
    Row::Each(
        "carry = ",
        Values {
            local: "20",
            lan: "20",
            wan: "20",
            swim: Some("6"),
        },
        "the most updates on one message (20 fit a packet of 1,400 bytes)",
    ),
    Row::Each(
        "lambda = ",
        Values {
            local: "2",
            lan: "4",
            wan: "4",
            swim: Some("3"),
        },
        "on how many messages a member tells an update, for each digit of the size (RetransmitMult)",
    ),
    Row::Each(
        "spread = ",
        Values {
            local: "1000",
            lan: "1000",
            wan: "5000",
            swim: Some("1"),
        },
        "members begin to probe within so many ticks of their start, by chance",
    ),
    Row::Same("", ""),
];

/// The lines on suspicions, and on how members judge themselves.
const SUSPICION_ROWS: [Row; 11] = [
    Row::Same("[suspicion]", ""),
    Row::Each(
        "alpha = ",
        Values {
            local: "3",
            lan: "4",
            wan: "6",
            swim: Some("5"),
        },
        "the shortest suspicion: alpha periods times log10 of the size (SuspicionMult)",
    ),
    Row::Same(
        "beta = 6",
        "the longest suspicion is so many times the shortest (SuspicionMaxTimeoutMult)",
    ),
    Row::Same("", ""),
    Row::Same("[lifeguard]", ""),
    Row::Same(
        "probe = true",
        "whether a member whose probes fail takes itself to be slow, and waits longer",
    ),
    Row::Same(
        "suspicion = true",
        "whether a suspicion begins at its longest, and further accusers shorten it",
    ),
    Row::Same(
        "buddy = true",
        "whether a ping tells a suspect first that it is suspected",
    ),
    Row::Each(
        "ceiling = ",
        Values {
            local: "7",
            lan: "7",
            wan: "7",
            swim: Some("8"),
        },
        "how slow a member takes itself to be at most (AwarenessMaxMultiplier - 1)",
    ),
    Row::Each(
        "confirmations = ",
        Values {
            local: "1",
            lan: "2",
            wan: "4",
            swim: Some("3"),
        },
        "how many further accusers make a suspicion shortest (SuspicionMult - 2)",
    ),
    Row::Each(
        "nack_percent = ",
        Values {
            local: "100",
            lan: "100",
            wan: "100",
            swim: Some("80"),
        },
        "after so many percent of timeout a helper tells that it has no answer",
    ),
];

/// The lines on gossip and streams, and on Serf.
const GOSSIP_ROWS: [Row; 20] = [
    Row::Newer("", ""),
    Row::Newer("[gossip]", ""),
    Row::Each(
        "interval = ",
        Values {
            local: "100",
            lan: "200",
            wan: "500",
            swim: None,
        },
        "ticks from one round of updates to the next, while there are any (GossipInterval)",
    ),
    Row::Each(
        "nodes = ",
        Values {
            local: "3",
            lan: "3",
            wan: "4",
            swim: None,
        },
        "to how many members a round goes (GossipNodes)",
    ),
    Row::Each(
        "dead = ",
        Values {
            local: "15000",
            lan: "30000",
            wan: "60000",
            swim: None,
        },
        "for how many ticks the dead get updates, and are known, too (GossipToTheDeadTime)",
    ),
    Row::Each(
        "push = ",
        Values {
            local: "15000",
            lan: "30000",
            wan: "60000",
            swim: None,
        },
        "ticks between two exchanges of whole tables, 0 for none (PushPullInterval)",
    ),
    Row::Newer(
        "queue = true",
        "whether updates wait as in memberlist's queue, with its fault (TransmitLimitedQueue)",
    ),
    Row::Newer(
        "packet = 1400",
        "bytes of a packet, which updates fill; with 0 `carry` counts them (UDPBufferSize)",
    ),
    Row::Owner(
        "meta = ",
        Owners {
            memberlist: Some("0"),
            serf: "2",
            consul: "125",
            consul_wan: "241",
        },
        "bytes of a member's tags (Consul's as remembered, not read)",
    ),
    Row::Newer("", ""),
    Row::Newer("[stream]", ""),
    Row::Newer(
        "connect = 1000",
        "ticks until a lost connection is first asked for again",
    ),
    Row::Newer(
        "again = 200",
        "ticks until what was lost on a stream is first sent again",
    ),
    Row::Each(
        "limit = ",
        Values {
            local: "1000",
            lan: "10000",
            wan: "30000",
            swim: None,
        },
        "how many ticks an exchange may take (TCPTimeout)",
    ),
    Row::Newer(
        "retry = 30000",
        "ticks until one who restarts asks its contact again (retry_interval)",
    ),
    Row::Serf("", ""),
    Row::Serf("[serf]", ""),
    Row::Serf(
        "reconnect = 30000",
        "ticks from one try to reach a failed member to the next (ReconnectInterval)",
    ),
    Row::Owner(
        "reap = ",
        Owners {
            memberlist: None,
            serf: "86400000",
            consul: "259200000",
            consul_wan: "259200000",
        },
        "after so many ticks a failed member is no longer tried (ReconnectTimeout)",
    ),
    Row::Owner(
        "linger = ",
        Owners {
            memberlist: None,
            serf: "1000",
            consul: "3000",
            consul_wan: "3000",
        },
        "ticks from saying that one leaves to one's exit (LeavePropagateDelay)",
    ),
];

/// The lines on the links, the members and a crash.
const CLUSTER_ROWS: [Row; 16] = [
    Row::Same("", ""),
    Row::Same("[link]", "between any two members"),
    Row::Each(
        "delay = ",
        Values {
            local: "1",
            lan: "1",
            wan: "40",
            swim: Some("1"),
        },
        "the fewest ticks that a message takes",
    ),
    Row::Each(
        "jitter = ",
        Values {
            local: "0",
            lan: "1",
            wan: "5",
            swim: Some("0"),
        },
        "how many ticks chance adds at most",
    ),
    Row::Same(
        "loss = 0",
        "how many of a million messages are lost: 10000 is 1 %",
    ),
    Row::Same("", ""),
    Row::Same("[[group]]", "one at least"),
    Row::Same(
        "name = \"node\"",
        "its members are node-0, node-1 and so on",
    ),
    Row::Same("count = 32", "how many they are"),
    Row::Same("start = 0", "the tick of their start; after 0 they join:"),
    Row::Same("", "contact = \"node-0\"    # whom they ask to let them in"),
    Row::Same("", ""),
    Row::Same("[[crash]]", ""),
    Row::Same("member = \"node-7\"", "who crashes"),
    Row::Same("at = 30000", "and at which tick"),
    Row::Same("", ""),
];

/// The lines on what else may happen: comments alone, of leaves and slow times.
const LEAVE_ROWS: [Row; 12] = [
    Row::Same("", "What else may happen, each any number of times:"),
    Row::Same("", ""),
    Row::Same("", "[[leave]]"),
    Row::Same("", "member = \"node-8\"     # who leaves"),
    Row::Same("", "at = 60000            # and at which tick"),
    Row::Same("", ""),
    Row::Same("", "[[slow]]"),
    Row::Same("", "member = \"node-9\"     # whose messages take longer"),
    Row::Same("", "from = 60000          # from this tick"),
    Row::Same("", "until = 70000         # to before this one"),
    Row::Same("", "extra = 300           # by so many ticks"),
    Row::Same("", ""),
];

/// The lines on restarts and blocked members: comments alone.
const RESTART_ROWS: [Row; 10] = [
    Row::Newer("", "[[restart]]"),
    Row::Newer(
        "",
        "member = \"node-7\"     # who starts again, under its name",
    ),
    Row::Newer("", "at = 60000            # and at which tick"),
    Row::Newer("", "contact = \"node-0\"    # whom it asks to let it in"),
    Row::Newer("", ""),
    Row::Newer("", "[[block]]"),
    Row::Newer(
        "",
        "member = \"node-11\"    # who sends and receives nothing, while its timers run",
    ),
    Row::Newer("", "from = 60000          # from this tick"),
    Row::Newer("", "until = 70000         # to before this one"),
    Row::Newer("", ""),
];

/// The lines on what may happen to the links, and on pauses: comments alone.
const CUT_ROWS: [Row; 17] = [
    Row::Newer("", "[[pause]]"),
    Row::Newer(
        "",
        "member = \"node-10\"    # who handles nothing, as a process that is stopped",
    ),
    Row::Newer("", "from = 60000          # from this tick"),
    Row::Newer("", "until = 70000         # to before this one"),
    Row::Newer("", ""),
    Row::Same("", "[[cut]]"),
    Row::Same(
        "",
        "from = \"node\"         # what members of this group send",
    ),
    Row::Same(
        "",
        "to = \"node\"           # to members of this one is lost",
    ),
    Row::Same("", "at = 80000            # from this tick"),
    Row::Same("", "until = 90000         # to before this one"),
    Row::Same("", ""),
    Row::Same("", "[[path]]"),
    Row::Same("", "from = \"node\"         # the link from this group"),
    Row::Same(
        "",
        "to = \"node\"           # to this one, where it differs from [link]",
    ),
    Row::Same("", "delay = 45"),
    Row::Same("", "jitter = 3"),
    Row::Same("", "loss = 2000"),
];
