//! Words of `dns_lookup`, and what it does at them.

/// Words, whether an answer comes, and the status, what is written, and the sentence that is told.
#[derive(Clone, Copy)]
pub struct Run {
    pub words: &'static str,
    pub answers: bool,
    pub status: u8,
    pub written: &'static str,
    pub said: &'static str,
}

const PAGE: &str = ";; ->>HEADER<<- opcode: QUERY; status: NOERROR; id: 0
;; Flags: qr rd ra; QUERY: 1; ANSWER: 1; AUTHORITY: 0; ADDITIONAL: 0

;; QUESTION SECTION:
;; example.com.\t\tIN\tA

;; ANSWER SECTION:
example.com.\t100\tIN\tA\t192.0.2.1

;; Query time: 0 msec
;; SERVER: 192.0.2.53:53 (UDP)
;; MSG SIZE  rcvd: 45

";

const PAGE_OF_THIS_HOST: &str = ";; ->>HEADER<<- opcode: QUERY; status: NOERROR; id: 0
;; Flags: qr rd ra; QUERY: 1; ANSWER: 1; AUTHORITY: 0; ADDITIONAL: 0

;; QUESTION SECTION:
;; example.com.\t\tIN\tA

;; ANSWER SECTION:
example.com.\t100\tIN\tA\t192.0.2.1

;; Query time: 0 msec
;; SERVER: 127.0.0.1:53 (UDP)
;; MSG SIZE  rcvd: 45

";

const UNANSWERED: &str =
    "dns_lookup: no answer: dgram error: connecting failed: connection refused; another @SERVER, +tcp or a longer +time= may help
dns_lookup: 192.0.2.53:53 (UDP), asked 2 times: connection refused
";

const UNANSWERED_ONCE: &str =
    "dns_lookup: no answer: dgram error: connecting failed: connection refused; another @SERVER, +tcp or a longer +time= may help
dns_lookup: 192.0.2.53:53 (UDP): connection refused
";

/// What is told of the configuration.
const NOTE: &str =
    "dns_lookup: /etc/resolv.conf: line 1 skipped, since its first word is not known\n";

const DOCUMENT: &str = "-
  type: MESSAGE
  message:
    type: RECURSIVE_RESPONSE
    message_size: 45b
    socket_family: INET
    socket_protocol: UDP
    response_address: \"192.0.2.53\"
    response_port: 53
    response_message_data:
      opcode: QUERY
      status: NOERROR
      id: 0
      flags: qr rd ra
      QUESTION: 1
      ANSWER: 1
      AUTHORITY: 0
      ADDITIONAL: 0
      QUESTION_SECTION:
        - 'example.com. IN A'
      ANSWER_SECTION:
        - 'example.com. 100 IN A 192.0.2.1'
";

pub const RUNS: [Run; 47] = [
    Run {
        words: "@192.0.2.53 +tries=0 example.com A",
        answers: false,
        status: 5,
        written: "",
        said: UNANSWERED_ONCE,
    },
    Run {
        words: "--record lookup @192.0.2.53 +tries=3 +time=10 +bufsize=4096 example.com A",
        answers: true,
        status: 0,
        written: PAGE,
        said: "",
    },
    Run {
        words: "@192.0.2.53 +noedns example.com A",
        answers: true,
        status: 0,
        written: PAGE,
        said: "",
    },
    Run {
        words: "example.com +tries=6",
        answers: true,
        status: 2,
        written: "",
        said: "dns_lookup: +tries=6 gives no number of tries from 0 to 5; see dns_lookup --help\n",
    },
    Run {
        words: "example.com +bufsize=65536",
        answers: true,
        status: 2,
        written: "",
        said: "dns_lookup: +bufsize=65536 gives no payload size from 0 to 65535; see dns_lookup --help\n",
    },
    Run {
        words: "example.com +nobufsize",
        answers: true,
        status: 2,
        written: "",
        said: "dns_lookup: +nobufsize gives no payload size from 0 to 65535; see dns_lookup --help\n",
    },
    Run {
        words: "example.com +edns=1",
        answers: true,
        status: 2,
        written: "",
        said: "dns_lookup: +edns=1 asks for another version, flag or option of EDNS than +dnssec, +nsid and +expire ask for; see dns_lookup --help\n",
    },
    Run {
        words: "@192.0.2.53 +domain=com +ndots=2 example A",
        answers: true,
        status: 0,
        written: PAGE,
        said: "",
    },
    Run {
        words: "@192.0.2.53 example A +domain=com",
        answers: true,
        status: 0,
        written: PAGE,
        said: NOTE,
    },
    Run {
        words: "@192.0.2.53 +search example.com A",
        answers: true,
        status: 0,
        written: PAGE,
        said: NOTE,
    },
    Run {
        words: "@192.0.2.53 +domain=net +ndots=9 example.com. A",
        answers: true,
        status: 0,
        written: PAGE,
        said: "",
    },
    Run {
        words: "example.com +domain",
        answers: true,
        status: 2,
        written: "",
        said: "dns_lookup: +domain gives no suffix by +domain=NAME; see dns_lookup --help\n",
    },
    Run {
        words: "example.com +ndots=65536",
        answers: true,
        status: 2,
        written: "",
        said: "dns_lookup: +ndots=65536 gives no count of dots from 0 to 65535; see dns_lookup --help\n",
    },
    Run {
        words: "@192.0.2.53 example.com A +noall +answer +nottlid +noclass",
        answers: true,
        status: 0,
        written: "example.com.\tA\t192.0.2.1\n",
        said: "",
    },
    Run {
        words: "@192.0.2.53 example.com A +noall +answer +nottlid +ttlunits",
        answers: true,
        status: 0,
        written: "example.com.\t1m40s\tIN\tA\t192.0.2.1\n",
        said: "",
    },
    Run {
        words: "@192.0.2.53 example.com A +yaml +short",
        answers: true,
        status: 0,
        written: DOCUMENT,
        said: "",
    },
    Run {
        words: "@192.0.2.53 +time=0 example.com A",
        answers: true,
        status: 0,
        written: PAGE,
        said: "",
    },
    Run {
        words: "@192.0.2.53 búcher.test A",
        answers: true,
        status: 2,
        written: "",
        said: "dns_lookup: búcher.test is no name, since it has letters past ASCII; its form that begins with xn-- is; see dns_lookup --help\n",
    },
    Run {
        words: "example.com -b 192.0.2.1",
        answers: true,
        status: 2,
        written: "",
        said: "dns_lookup: -b asks for an address of this host to ask from, which the system chooses; see dns_lookup --help\n",
    },
    Run {
        words: "@192.0.2.53 example.com A",
        answers: true,
        status: 0,
        written: PAGE,
        said: "",
    },
    Run {
        words: "--record FILE @192.0.2.53 example.com A",
        answers: true,
        status: 0,
        written: PAGE,
        said: "",
    },
    Run {
        words: "+time=7 example.com a @192.0.2.53",
        answers: true,
        status: 0,
        written: PAGE,
        said: "",
    },
    Run {
        words: "@192.0.2.53 example.com TYPE1 +short",
        answers: true,
        status: 0,
        written: "192.0.2.1\n",
        said: "",
    },
    Run {
        words: "@192.0.2.53 example.com +short",
        answers: true,
        status: 5,
        written: "192.0.2.1\n",
        said: UNANSWERED,
    },
    Run {
        words: "@192.0.2.53 example.com A +noall +answer",
        answers: true,
        status: 0,
        written: "example.com.\t100\tIN\tA\t192.0.2.1\n",
        said: "",
    },
    Run {
        words: "@192.0.2.53 +noall +answer example.com A +question +noanswer",
        answers: true,
        status: 0,
        written: ";; example.com.\t\tIN\tA\n",
        said: "",
    },
    Run {
        words: "@192.0.2.53 +short example.com A example.com A +noshort +noall",
        answers: true,
        status: 0,
        written: "192.0.2.1\n",
        said: "",
    },
    Run {
        words: "@192.0.2.53 -6 example.com A",
        answers: true,
        status: 5,
        written: "",
        said: "dns_lookup: no answer: no transport available; another @SERVER, +tcp or a longer +time= may help\n",
    },
    Run {
        words: "@192.0.2.53 example.com A",
        answers: false,
        status: 5,
        written: "",
        said: UNANSWERED,
    },
    Run {
        words: "example.com A",
        answers: true,
        status: 0,
        written: PAGE_OF_THIS_HOST,
        said: NOTE,
    },
    Run {
        words: "@ns.example example.com",
        answers: true,
        status: 2,
        written: "",
        said: "dns_lookup: @ns.example names no server: it is no address, and no name whose address is found; see dns_lookup --help\n",
    },
    Run {
        words: "-p 0 example.com",
        answers: true,
        status: 2,
        written: "",
        said: "dns_lookup: 0 is no port; see dns_lookup --help\n",
    },
    Run {
        words: "example.com -p 65536",
        answers: true,
        status: 2,
        written: "",
        said: "dns_lookup: 65536 is no port; see dns_lookup --help\n",
    },
    Run {
        words: "example.com -p",
        answers: true,
        status: 2,
        written: "",
        said: "dns_lookup: no port stands behind -p; see dns_lookup --help\n",
    },
    Run {
        words: "-x one",
        answers: true,
        status: 2,
        written: "",
        said: "dns_lookup: one is no address; see dns_lookup --help\n",
    },
    Run {
        words: "-x",
        answers: true,
        status: 2,
        written: "",
        said: "dns_lookup: no address stands behind -x; see dns_lookup --help\n",
    },
    Run {
        words: "example.com A @192.0.2.53 -x 192.0.2.1",
        answers: true,
        status: 2,
        written: "",
        said: "dns_lookup: 192.0.2.1 is another name behind a server that stands behind a name, and servers are asked for all names; see dns_lookup --help\n",
    },
    Run {
        words: "example..com",
        answers: true,
        status: 2,
        written: "",
        said: "dns_lookup: example..com is no name; see dns_lookup --help\n",
    },
    Run {
        words: "-t NOTYPE example.com",
        answers: true,
        status: 2,
        written: "",
        said: "dns_lookup: NOTYPE is neither a known type nor TYPE with a number; see dns_lookup --help\n",
    },
    Run {
        words: "-q",
        answers: true,
        status: 2,
        written: "",
        said: "dns_lookup: no name stands behind -q; see dns_lookup --help\n",
    },
    Run {
        words: "@fe80::1%eth0 example.com",
        answers: true,
        status: 2,
        written: "",
        said: "dns_lookup: @fe80::1%eth0 has a scope behind its %, and no server of one interface alone is asked; see dns_lookup --help\n",
    },
    Run {
        words: "NONE TXT version.bind",
        answers: true,
        status: 2,
        written: "",
        said: "dns_lookup: NONE is another class than IN, CH and HS; see dns_lookup --help\n",
    },
    Run {
        words: "-tA IN -q example.com @[192.0.2.53]#53 +SHORT +nodo",
        answers: true,
        status: 0,
        written: "192.0.2.1\n",
        said: "",
    },
    Run {
        words: "example.com example.net @192.0.2.53",
        answers: true,
        status: 2,
        written: "",
        said: "dns_lookup: @192.0.2.53 names a server behind two names, and servers are asked for all names; see dns_lookup --help\n",
    },
    Run {
        words: "example.com axfr",
        answers: true,
        status: 2,
        written: "",
        said: "dns_lookup: axfr is no type that one message answers; see dns_lookup --help\n",
    },
    Run {
        words: "example.com +time=601",
        answers: true,
        status: 2,
        written: "",
        said: "dns_lookup: +time=601 gives no seconds from 0 to 600; see dns_lookup --help\n",
    },
    Run {
        words: "example.com +nssearch",
        answers: true,
        status: 2,
        written: "",
        said: "dns_lookup: +nssearch asks for the start of a zone at each of its servers, and one answer is asked for; see dns_lookup --help\n",
    },
];
