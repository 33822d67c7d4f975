//! A query of three tables over five packets, and what is printed of it.

/// Counts packets, times of those that weren't dropped, and bytes out of sequence, by flow.
pub const QUERY: &[u8] = b"def count([c], []) { c = c + 1; }\n\
def total([t], [lat]) { t = t + lat; }\n\
def oos([last, n], [tcpseq, payload_len]) { if (last != tcpseq) { n = n + 1; } last = tcpseq + payload_len; }\n\
sent = filter(pktstream, tout != infinity);\n\
timed = map(sent, [lat = tout - tin]);\n\
r = groupby(pktstream, [5tuple], count);\n\
u = groupby(timed, [5tuple], total);\n\
v = groupby(pktstream, [5tuple], oos);\n\
final w = top(r, c, 3);\n\
print w;\n\
print u;\n\
print v;\n";

pub const TRACE: &[u8] =
    b"switch,qid,uid,srcip,dstip,srcport,dstport,proto,pkt_len,payload_len,tcpseq,tin,tout,qsize\n\
1,0,1,10.0.0.1,10.0.1.1,1000,80,6,140,100,0,10,25,0\n\
1,0,2,10.0.0.2,10.0.1.1,1001,80,6,140,100,7,12,40,1\n\
1,0,3,10.0.0.1,10.0.1.1,1000,80,6,140,100,100,20,55,2\n\
1,0,4,10.0.0.3,10.0.1.1,1002,80,6,140,100,0,21,inf,3\n\
1,0,5,10.0.0.4,10.0.1.1,1003,80,6,140,100,0,60,75,0\n";

/// The tables of the whole trace.
pub const TABLES: &[u8] = AFTER_FIVE;

const VIEW_OF_TWO: &[u8] = b"view 2\n\
table w final 2\nsrcip,dstip,srcport,dstport,proto,c\n\
167772161,167772417,1000,80,6,1\n167772162,167772417,1001,80,6,1\n\
table u linear 0 2\nsrcip,dstip,srcport,dstport,proto,mark,epoch,epochs,t\n\
167772161,167772417,1000,80,6,exact,*,1,15\n167772162,167772417,1001,80,6,exact,*,1,28\n\
table v linear 1 2\nsrcip,dstip,srcport,dstport,proto,mark,epoch,epochs,last,n\n\
167772161,167772417,1000,80,6,exact,*,1,100,0\n167772162,167772417,1001,80,6,exact,*,1,107,1\n";

const VIEW_OF_FOUR: &[u8] = b"view 4\n\
table w final 3\nsrcip,dstip,srcport,dstport,proto,c\n\
167772161,167772417,1000,80,6,2\n167772162,167772417,1001,80,6,1\n167772163,167772417,1002,80,6,1\n\
table u linear 0 2\nsrcip,dstip,srcport,dstport,proto,mark,epoch,epochs,t\n\
167772161,167772417,1000,80,6,exact,*,1,50\n167772162,167772417,1001,80,6,exact,*,1,28\n\
table v linear 1 3\nsrcip,dstip,srcport,dstport,proto,mark,epoch,epochs,last,n\n\
167772161,167772417,1000,80,6,exact,*,1,200,0\n167772162,167772417,1001,80,6,exact,*,1,107,1\n\
167772163,167772417,1002,80,6,exact,*,1,100,0\n";

const AFTER_FIVE: &[u8] = b"table w final 3\nsrcip,dstip,srcport,dstport,proto,c\n\
167772161,167772417,1000,80,6,2\n167772162,167772417,1001,80,6,1\n167772163,167772417,1002,80,6,1\n\
table u linear 0 3\nsrcip,dstip,srcport,dstport,proto,mark,epoch,epochs,t\n\
167772161,167772417,1000,80,6,exact,*,1,50\n167772162,167772417,1001,80,6,exact,*,1,28\n167772164,167772417,1003,80,6,exact,*,1,15\n\
table v linear 1 4\nsrcip,dstip,srcport,dstport,proto,mark,epoch,epochs,last,n\n\
167772161,167772417,1000,80,6,exact,*,1,200,0\n167772162,167772417,1001,80,6,exact,*,1,107,1\n\
167772163,167772417,1002,80,6,exact,*,1,100,0\n167772164,167772417,1003,80,6,exact,*,1,100,0\n";

/// What a run with a view after every second packet writes, piece by piece.
pub const VIEWS: [&[u8]; 3] = [VIEW_OF_TWO, VIEW_OF_FOUR, AFTER_FIVE];
