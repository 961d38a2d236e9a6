//! Some of the worked runs of `tests/worked`, for the tests of whatever runs a scenario.

/// A scenario, and its run whole.
#[derive(Clone, Copy)]
pub(crate) struct Worked {
    pub(crate) scenario: &'static str,
    pub(crate) trace: &'static str,
    pub(crate) report: &'static str,
}

/// A crash that is suspected, and confirmed when the suspicion's time is over.
pub(crate) const CRASH_DETECTED: Worked = Worked {
    scenario: "version = 1
seed = 7
end = 8000
[swim]
period = 1000
timeout = 300
spread = 1
[link]
delay = 10
[[group]]
name = \"n\"
count = 2
[[crash]]
member = \"n-1\"
at = 500
",
    trace: "moment,member,from,number,what,about,value,lost
0,n-0,n-0,0,start,,0,0
0,n-1,n-1,0,start,,0,0
1,n-0,n-0,1,ping,n-1,1,0
1,n-1,n-1,2,ping,n-0,1,0
11,n-0,n-1,3,ack,n-1,1,0
11,n-1,n-0,2,ack,n-0,1,0
500,n-1,n-1,1,crash,,0,0
1001,n-0,n-0,4,ping,n-1,2,0
2001,n-0,n-0,8,fail,n-1,2,0
2001,n-0,n-0,8,health,,1,0
2001,n-0,n-0,8,suspect,n-1,0,0
2001,n-0,n-0,8,ping,n-1,3,0
4001,n-0,n-0,12,fail,n-1,3,0
4001,n-0,n-0,12,health,,2,0
4001,n-0,n-0,12,ping,n-1,4,0
7001,n-0,n-0,9,confirm,n-1,0,0
7001,n-0,n-0,15,fail,n-1,4,0
7001,n-0,n-0,15,health,,3,0
",
    report: "members 2
end 8000
rows 18
crash n-1 500 suspect 2001 confirm 7001 last 7001 confirmers 1 latency 6501
latency least 6501 greatest 6501
false suspect 0 healthy 0
false confirm 0 healthy 0
accuse 0
refute 0
fail 3
health 3
sent join 0 lost 0
sent welcome 0 lost 0
sent ping 5 lost 0
sent ping-req 0 lost 0
sent ack 2 lost 0
sent nack 0 lost 0
",
};

/// A member that joins by its contact.
pub(crate) const JOIN: Worked = Worked {
    scenario: "version = 1
seed = 7
end = 21
[swim]
period = 1000
timeout = 300
spread = 1
[link]
delay = 10
[[group]]
name = \"n\"
count = 2
[[group]]
name = \"j\"
count = 1
start = 1
contact = \"n-0\"
",
    trace: "moment,member,from,number,what,about,value,lost
0,n-0,n-0,0,start,,0,0
0,n-1,n-1,0,start,,0,0
1,n-0,n-0,1,ping,n-1,1,0
1,n-1,n-1,1,ping,n-0,1,0
1,j-0,j-0,0,start,,0,0
1,j-0,j-0,0,join,n-0,0,0
11,n-0,n-1,2,ack,n-1,1,0
11,n-0,j-0,1,alive,j-0,0,0
11,n-0,j-0,1,welcome,j-0,0,0
11,n-1,n-0,2,ack,n-0,1,0
21,j-0,n-0,6,joined,n-0,2,0
",
    report: "members 3
end 21
rows 11
latency least - greatest -
false suspect 0 healthy 0
false confirm 0 healthy 0
accuse 0
refute 0
fail 0
health 0
sent join 1 lost 0
sent welcome 1 lost 0
sent ping 2 lost 0
sent ping-req 0 lost 0
sent ack 2 lost 0
sent nack 0 lost 0
",
};
