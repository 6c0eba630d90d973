// What each front of some texts means, as plain readers have it. `scripts/plain-readers` writes
// this file; change it there.

/// A text, and what its fronts mean, in lines: a line has the greatest length of the fronts that it
/// speaks of, those that are longer than the line above says, and the answer to each of them.
pub struct Fronts {
    pub text: &'static str,
    pub answers: &'static str,
}

// Time strings, and texts that are none.
pub const TIME_STRINGS: [Fronts; 14] = [
    Fronts {
        text: "Wk2305-0755",
        answers: "0 line 0: bad time string at 0
1 line 0: unknown timetable
2  1440-8639
3 line 0: bad time string at 3
4 line 0: bad time string at 4
5 line 0: bad time string at 5
6 line 0: bad time string at 6
7 line 0: bad time string at 7
8 line 0: bad time string at 8
9 line 0: bad time string at 9
10 line 0: bad time string at 10
11  1440-1915 2825-3355 4265-4795 5705-6235 7145-7675 8585-8639",
    },
    Fronts {
        text: "Wk1200-1300",
        answers: "0 line 0: bad time string at 0
1 line 0: unknown timetable
2  1440-8639
3 line 0: bad time string at 3
4 line 0: bad time string at 4
5 line 0: bad time string at 5
6 line 0: bad time string at 6
7 line 0: bad time string at 7
8 line 0: bad time string at 8
9 line 0: bad time string at 9
10 line 0: bad time string at 10
11  2160-2220 3600-3660 5040-5100 6480-6540 7920-7980",
    },
    Fronts {
        text: "Any",
        answers: "0 line 0: bad time string at 0
2 line 0: unknown timetable
3  0-10079",
    },
    Fronts {
        text: "Lunch",
        answers: "0 line 0: bad time string at 0
5 line 0: unknown timetable",
    },
    Fronts {
        text: "Wk2305-0855,Sa,Su2305-1655",
        answers: "0 line 0: bad time string at 0
1 line 0: unknown timetable
2  1440-8639
3 line 0: bad time string at 3
4 line 0: bad time string at 4
5 line 0: bad time string at 5
6 line 0: bad time string at 6
7 line 0: bad time string at 7
8 line 0: bad time string at 8
9 line 0: bad time string at 9
10 line 0: bad time string at 10
11  1440-1975 2825-3415 4265-4855 5705-6295 7145-7735 8585-8639
12 line 0: bad time string at 12
13 line 0: bad time string at 13
14  1440-1975 2825-3415 4265-4855 5705-6295 7145-7735 8585-10079
15 line 0: bad time string at 15
16 line 0: bad time string at 16
17  0-1975 2825-3415 4265-4855 5705-6295 7145-7735 8585-10079
18 line 0: bad time string at 18
19 line 0: bad time string at 19
20 line 0: bad time string at 20
21 line 0: bad time string at 21
22 line 0: bad time string at 22
23 line 0: bad time string at 23
24 line 0: bad time string at 24
25 line 0: bad time string at 25
26  0-1015 1385-1975 2825-3415 4265-4855 5705-6295 7145-7735 8585-10079",
    },
    Fronts {
        text: "SuMoTuWeThFrSa0000-2400|wkANY2359-0000",
        answers: "0 line 0: bad time string at 0
1 line 0: unknown timetable
2  0-1439
3 line 0: bad time string at 3
4  0-2879
5 line 0: bad time string at 5
6  0-4319
7 line 0: bad time string at 7
8  0-5759
9 line 0: bad time string at 9
10  0-7199
11 line 0: bad time string at 11
12  0-8639
13 line 0: bad time string at 13
14  0-10079
15 line 0: bad time string at 15
16 line 0: bad time string at 16
17 line 0: bad time string at 17
18 line 0: bad time string at 18
19 line 0: bad time string at 19
20 line 0: bad time string at 20
21 line 0: bad time string at 21
22 line 0: bad time string at 22
23  0-10079
24 line 0: bad time string at 24
25 line 0: bad time string at 25
26  0-10079
27 line 0: bad time string at 27
28 line 0: bad time string at 28
29  0-10079
30 line 0: bad time string at 30
31 line 0: bad time string at 31
32 line 0: bad time string at 32
33 line 0: bad time string at 33
34 line 0: bad time string at 34
35 line 0: bad time string at 35
36 line 0: bad time string at 36
37 line 0: bad time string at 37
38  0-10079",
    },
    Fronts {
        text: "Never",
        answers: "0 line 0: bad time string at 0
4 line 0: unknown timetable
5 ",
    },
    Fronts {
        text: "Evening",
        answers: "0 line 0: bad time string at 0
6 line 0: unknown timetable
7  0-1915 2465-3355 3905-4795 5345-6235 6785-7675 8225-10079",
    },
    Fronts {
        text: "NonPeak",
        answers: "0 line 0: bad time string at 0
6 line 0: unknown timetable
7  0-1855 2525-3295 3965-4735 5405-6175 6845-7615 8285-10079",
    },
    Fronts {
        text: "Night|Mo",
        answers: "0 line 0: bad time string at 0
4 line 0: unknown timetable
5  0-1015 1385-1915 2825-3355 4265-4795 5705-6235 7145-7675 8585-10079
8 line 0: bad time string at 0",
    },
    Fronts {
        text: "MoTuXx",
        answers: "0 line 0: bad time string at 0
1 line 0: unknown timetable
2  1440-2879
3 line 0: bad time string at 3
4  1440-4319
6 line 0: bad time string at 4",
    },
    Fronts {
        text: "Wednesday",
        answers: "0 line 0: bad time string at 0
1 line 0: unknown timetable
2  4320-5759
9 line 0: bad time string at 2",
    },
    Fronts {
        text: "Any,,",
        answers: "0 line 0: bad time string at 0
2 line 0: unknown timetable
3  0-10079
5 line 0: bad time string at 4",
    },
    Fronts {
        text: "Tu0960-1000",
        answers: "0 line 0: bad time string at 0
1 line 0: unknown timetable
2  2880-4319
3 line 0: bad time string at 3
11 line 0: bad time string at 4",
    },
];

// Sys files with rare forms, each up to its fault, and a worked one.
pub const SYS_FILES: [Fronts; 8] = [
    Fronts {
        text: "max-retries 3\r\nTIME never 0\ntimetable night Mo|tu0000-2400\ntimetable Rare-1 NIGHT\n\tsystem a.b-C_9 # one\nTimeGrade 9 SuMo2300-0100,Fr 525600\ntime rare-1\\\n 007\nport x \\\\# y \\# z\nmax-retries 12\nmax-retries 0\nsystem b\nsystem c\ntime nonpeak|Sa\\",
        answers: "0 
10 skipped 1/
12 line 1: bad words
13 
14 line 1: bad number
15 
18 skipped 2/
20 line 2: bad words
24 line 2: unknown timetable
28 
31 skipped 3/
32 line 3: bad words
36 skipped 3/
44 line 3: bad words
45 line 3: unknown timetable
46 
47 line 3: bad time string at 3
48 line 3: bad time string at 4
49 
50 line 3: bad time string at 6
51 line 3: bad time string at 7
52 line 3: bad time string at 8
53 line 3: bad time string at 9
54 line 3: bad time string at 10
55 line 3: bad time string at 11
56 line 3: bad time string at 12
57 line 3: bad time string at 13
59 
62 skipped 4/
63 line 4: bad words
67 skipped 4/
76 line 4: bad words
80 line 4: unknown timetable
83 
88 skipped 5/
90 line 5: bad system name
91 a 3 0: z 0:/
92 a. 3 0: z 0:/
93 a.b 3 0: z 0:/
94 a.b- 3 0: z 0:/
95 a.b-C 3 0: z 0:/
96 a.b-C_ 3 0: z 0:/
104 a.b-C_9 3 0: z 0:/
107 a.b-C_9 3 0: z 0:/skipped 6/
108 line 6: bad words
112 a.b-C_9 3 0: z 0:/skipped 6/
116 line 6: bad words
117 line 6: unknown timetable
118 a.b-C_9 3 0: 9 0: 0-1439/
119 line 6: bad time string at 3
120 a.b-C_9 3 0: 9 0: 0-2879/
121 line 6: bad time string at 5
122 line 6: bad time string at 6
123 line 6: bad time string at 7
124 line 6: bad time string at 8
125 line 6: bad time string at 9
126 line 6: bad time string at 10
127 line 6: bad time string at 11
128 line 6: bad time string at 12
129 a.b-C_9 3 0: 9 0: 0-60 1380-1500 2820-2879/
130 line 6: bad time string at 14
131 line 6: bad time string at 15
133 a.b-C_9 3 0: 9 0: 0-60 1380-1500 2820-2879 7200-8639/
134 a.b-C_9 3 0: 9 5: 0-60 1380-1500 2820-2879 7200-8639/
135 a.b-C_9 3 0: 9 52: 0-60 1380-1500 2820-2879 7200-8639/
136 a.b-C_9 3 0: 9 525: 0-60 1380-1500 2820-2879 7200-8639/
137 a.b-C_9 3 0: 9 5256: 0-60 1380-1500 2820-2879 7200-8639/
138 a.b-C_9 3 0: 9 52560: 0-60 1380-1500 2820-2879 7200-8639/
140 a.b-C_9 3 0: 9 525600: 0-60 1380-1500 2820-2879 7200-8639/
143 a.b-C_9 3 0: 9 525600: 0-60 1380-1500 2820-2879 7200-8639/skipped 7/
145 line 7: bad words
150 line 7: unknown timetable
156 a.b-C_9 3 0: 9 525600: 0-60 1380-1500 2820-2879 7200-8639 z 0: 1440-4319/
158 a.b-C_9 3 0: 9 525600: 0-60 1380-1500 2820-2879 7200-8639 z 7: 1440-4319/
176 a.b-C_9 3 0: 9 525600: 0-60 1380-1500 2820-2879 7200-8639 z 7: 1440-4319/skipped 9/
186 a.b-C_9 3 0: 9 525600: 0-60 1380-1500 2820-2879 7200-8639 z 7: 1440-4319/skipped 9/skipped 10/
188 line 10: bad words
189 a.b-C_9 1 0: 9 525600: 0-60 1380-1500 2820-2879 7200-8639 z 7: 1440-4319/skipped 9/
191 a.b-C_9 12 0: 9 525600: 0-60 1380-1500 2820-2879 7200-8639 z 7: 1440-4319/skipped 9/
201 a.b-C_9 12 0: 9 525600: 0-60 1380-1500 2820-2879 7200-8639 z 7: 1440-4319/skipped 9/skipped 11/
203 line 11: bad words
205 a.b-C_9 0 0: 9 525600: 0-60 1380-1500 2820-2879 7200-8639 z 7: 1440-4319/skipped 9/
210 a.b-C_9 0 0: 9 525600: 0-60 1380-1500 2820-2879 7200-8639 z 7: 1440-4319/skipped 9/skipped 12/
212 line 12: bad system name
214 a.b-C_9 0 0: 9 525600: 0-60 1380-1500 2820-2879 7200-8639 z 7: 1440-4319/b 3 0: z 0:/skipped 9/
219 a.b-C_9 0 0: 9 525600: 0-60 1380-1500 2820-2879 7200-8639 z 7: 1440-4319/b 3 0: z 0:/skipped 9/skipped 13/
221 line 13: bad system name
223 a.b-C_9 0 0: 9 525600: 0-60 1380-1500 2820-2879 7200-8639 z 7: 1440-4319/b 3 0: z 0:/c 3 0: z 0:/skipped 9/
226 a.b-C_9 0 0: 9 525600: 0-60 1380-1500 2820-2879 7200-8639 z 7: 1440-4319/b 3 0: z 0:/c 3 0: z 0:/skipped 9/skipped 14/
228 line 14: bad words
234 line 14: unknown timetable
235 a.b-C_9 0 0: 9 525600: 0-60 1380-1500 2820-2879 7200-8639 z 7: 1440-4319/b 3 0: z 0:/c 3 0: z 0: 0-1855 2525-3295 3965-4735 5405-6175 6845-7615 8285-10079/skipped 9/
239 line 14: bad time string at 0",
    },
    Fronts {
        text: "system a\nmax-retries 1\ntime Any\nsystem A\n#\\\n\nsystem a",
        answers: "0 
5 skipped 1/
7 line 1: bad system name
9 a 26 0:/
19 a 26 0:/skipped 2/
21 line 2: bad words
23 a 1 0:/
26 a 1 0:/skipped 3/
28 line 3: bad words
30 line 3: unknown timetable
32 a 1 0: z 0: 0-10079/
37 a 1 0: z 0: 0-10079/skipped 4/
39 line 4: bad system name
45 a 1 0: z 0: 0-10079/A 26 0:/
50 a 1 0: z 0: 0-10079/A 26 0:/skipped 7/
52 line 7: bad system name
53 line 7: system defined twice",
    },
    Fronts {
        text: "timetable t_1 Evening\r\n\r\n\\\r\n\\\ntimetable T_1 Moonlight\ntime Any",
        answers: "0 
3 skipped 1/
4 line 1: bad words
8 skipped 1/
14 line 1: bad words
20 line 1: unknown timetable
21 
22 line 1: bad time string at 0
23 
24 skipped 2/
26 
27 skipped 3/
30 
33 skipped 3/
34 line 3: bad words
38 skipped 3/
44 line 3: bad words
45 line 3: unknown timetable
46 line 3: timetable defined twice
62 line 3: bad time string at 2",
    },
    Fronts {
        text: "time Su2359-0000\ntimetable night Never\ntime Night 0000000001\n",
        answers: "0 
3 skipped 1/
5 line 1: bad words
6 line 1: unknown timetable
7 
8 line 1: bad time string at 3
9 line 1: bad time string at 4
10 line 1: bad time string at 5
11 line 1: bad time string at 6
12 line 1: bad time string at 7
13 line 1: bad time string at 8
14 line 1: bad time string at 9
15 line 1: bad time string at 10
17 
20 skipped 2/
21 line 2: bad words
25 skipped 2/
33 line 2: bad words
37 line 2: unknown timetable
39 
42 skipped 3/
44 line 3: bad words
48 line 3: unknown timetable
59 
61 line 3: bad number",
    },
    Fronts {
        text: "timegrade N Any 1\\\n5\\\n\\# x\n",
        answers: "0 
3 skipped 1/
4 line 1: bad words
8 skipped 1/
12 line 1: bad words
14 line 1: unknown timetable
23 
25 line 1: bad number
27 line 1: bad words",
    },
    Fronts {
        text: "a\n\\\nb\\\n c\nd #\\\ne\nf\\",
        answers: "0 
4 skipped 1/
10 skipped 1/skipped 2/
17 skipped 1/skipped 2/skipped 5/
19 skipped 1/skipped 2/skipped 5/skipped 7/",
    },
    Fronts {
        text: "success-wait 5\nSUCCESS-Wait 600\nsystem a\n success-wait 0\nsystem b\nsuccess-wait 60\nsuccess-wait 31536000\nsystem c\nsuccess-wait\\\n 31536001",
        answers: "0 
11 skipped 1/
13 line 1: bad words
15 
26 skipped 2/
28 line 2: bad words
32 
37 skipped 3/
39 line 3: bad system name
42 a 26 600:/
53 a 26 600:/skipped 4/
55 line 4: bad words
57 a 26 0:/
62 a 26 0:/skipped 5/
64 line 5: bad system name
66 a 26 0:/b 26 600:/
77 a 26 0:/b 26 600:/skipped 6/
79 line 6: bad words
80 a 26 0:/b 26 6:/
82 a 26 0:/b 26 60:/
93 a 26 0:/b 26 60:/skipped 7/
95 line 7: bad words
96 a 26 0:/b 26 3:/
97 a 26 0:/b 26 31:/
98 a 26 0:/b 26 315:/
99 a 26 0:/b 26 3153:/
100 a 26 0:/b 26 31536:/
101 a 26 0:/b 26 315360:/
102 a 26 0:/b 26 3153600:/
104 a 26 0:/b 26 31536000:/
109 a 26 0:/b 26 31536000:/skipped 8/
111 line 8: bad system name
113 a 26 0:/b 26 31536000:/c 26 600:/
124 a 26 0:/b 26 31536000:/c 26 600:/skipped 9/
128 line 9: bad words
129 a 26 0:/b 26 31536000:/c 26 3:/
130 a 26 0:/b 26 31536000:/c 26 31:/
131 a 26 0:/b 26 31536000:/c 26 315:/
132 a 26 0:/b 26 31536000:/c 26 3153:/
133 a 26 0:/b 26 31536000:/c 26 31536:/
134 a 26 0:/b 26 31536000:/c 26 315360:/
135 a 26 0:/b 26 31536000:/c 26 3153600:/
136 line 9: bad number",
    },
    Fronts {
        text: "# defaults\ntime Wk2305-0755\ntimetable Lunch Wk1200-\\\n1300\nsystem duke\n  time Lunch 15\n  port ser\\#1\n  alternate backup\n  timegrade C Any\nsystem unc\n  max-retries 2\n",
        answers: "11 
14 skipped 2/
16 line 2: bad words
17 line 2: unknown timetable
18 
19 line 2: bad time string at 3
20 line 2: bad time string at 4
21 line 2: bad time string at 5
22 line 2: bad time string at 6
23 line 2: bad time string at 7
24 line 2: bad time string at 8
25 line 2: bad time string at 9
26 line 2: bad time string at 10
28 
31 skipped 3/
32 line 3: bad words
36 skipped 3/
44 line 3: bad words
45 line 3: unknown timetable
46 
47 line 3: bad time string at 3
48 line 3: bad time string at 4
49 line 3: bad time string at 5
50 line 3: bad time string at 6
53 line 3: bad time string at 7
54 line 3: bad time string at 8
55 line 3: bad time string at 9
56 line 3: bad time string at 10
58 
63 skipped 5/
65 line 5: bad system name
66 d 26 0: z 0: 1440-1915 2825-3355 4265-4795 5705-6235 7145-7675 8585-8639/
67 du 26 0: z 0: 1440-1915 2825-3355 4265-4795 5705-6235 7145-7675 8585-8639/
68 duk 26 0: z 0: 1440-1915 2825-3355 4265-4795 5705-6235 7145-7675 8585-8639/
72 duke 26 0: z 0: 1440-1915 2825-3355 4265-4795 5705-6235 7145-7675 8585-8639/
75 duke 26 0: z 0: 1440-1915 2825-3355 4265-4795 5705-6235 7145-7675 8585-8639/skipped 6/
77 line 6: bad words
81 line 6: unknown timetable
83 duke 26 0: z 0: 2160-2220 3600-3660 5040-5100 6480-6540 7920-7980/
84 duke 26 0: z 1: 2160-2220 3600-3660 5040-5100 6480-6540 7920-7980/
88 duke 26 0: z 15: 2160-2220 3600-3660 5040-5100 6480-6540 7920-7980/
102 duke 26 0: z 15: 2160-2220 3600-3660 5040-5100 6480-6540 7920-7980/skipped 7/
121 duke 26 0: z 15: 2160-2220 3600-3660 5040-5100 6480-6540 7920-7980/skipped 7/skipped 8/
124 duke 26 0: z 15: 2160-2220 3600-3660 5040-5100 6480-6540 7920-7980/skipped 7/skipped 8/skipped 9/
125 line 9: bad words
129 duke 26 0: z 15: 2160-2220 3600-3660 5040-5100 6480-6540 7920-7980/skipped 7/skipped 8/skipped 9/
133 line 9: bad words
135 line 9: unknown timetable
137 duke 26 0: z 15: 2160-2220 3600-3660 5040-5100 6480-6540 7920-7980 C 0: 0-10079/skipped 7/skipped 8/
142 duke 26 0: z 15: 2160-2220 3600-3660 5040-5100 6480-6540 7920-7980 C 0: 0-10079/skipped 7/skipped 8/skipped 10/
144 line 10: bad system name
145 duke 26 0: z 15: 2160-2220 3600-3660 5040-5100 6480-6540 7920-7980 C 0: 0-10079/u 26 0: z 0: 1440-1915 2825-3355 4265-4795 5705-6235 7145-7675 8585-8639/skipped 7/skipped 8/
146 duke 26 0: z 15: 2160-2220 3600-3660 5040-5100 6480-6540 7920-7980 C 0: 0-10079/un 26 0: z 0: 1440-1915 2825-3355 4265-4795 5705-6235 7145-7675 8585-8639/skipped 7/skipped 8/
150 duke 26 0: z 15: 2160-2220 3600-3660 5040-5100 6480-6540 7920-7980 C 0: 0-10079/unc 26 0: z 0: 1440-1915 2825-3355 4265-4795 5705-6235 7145-7675 8585-8639/skipped 7/skipped 8/
160 duke 26 0: z 15: 2160-2220 3600-3660 5040-5100 6480-6540 7920-7980 C 0: 0-10079/unc 26 0: z 0: 1440-1915 2825-3355 4265-4795 5705-6235 7145-7675 8585-8639/skipped 7/skipped 8/skipped 11/
162 line 11: bad words
164 duke 26 0: z 15: 2160-2220 3600-3660 5040-5100 6480-6540 7920-7980 C 0: 0-10079/unc 2 0: z 0: 1440-1915 2825-3355 4265-4795 5705-6235 7145-7675 8585-8639/skipped 7/skipped 8/",
    },
];

// A worked map entry.
pub const ENTRIES: [Fronts; 1] = [Fronts {
    text: "#N unc\n#S VAX 11/780\nunc duke(HOURLY+HIGH), phs(DAILY*4),\n mcnc, old(DEAD)\nunc x(2/0)\nunc = unc-ch\n",
    answers: "3 no name
4 u: 
5 un: 
21 unc: 
23 unc: skipped 3/
25 unc: 
26 unc: d 4000/
27 unc: du 4000/
28 unc: duk 4000/
29 unc: duke 4000/
41 unc: skipped 3/
44 unc: duke 495/
45 unc: duke 495/p 4000/
46 unc: duke 495/ph 4000/
47 unc: duke 495/phs 4000/
55 unc: skipped 3/
59 unc: duke 495/phs 20000/
60 unc: duke 495/m 4000/phs 20000/
61 unc: duke 495/mc 4000/phs 20000/
62 unc: duke 495/mcn 4000/phs 20000/
65 unc: duke 495/mcnc 4000/phs 20000/
66 unc: duke 495/mcnc 4000/o 4000/phs 20000/
67 unc: duke 495/mcnc 4000/ol 4000/phs 20000/
68 unc: duke 495/mcnc 4000/old 4000/phs 20000/
73 unc: skipped 3/
75 unc: duke 495/mcnc 4000/phs 20000/old dead/
77 unc: duke 495/mcnc 4000/phs 20000/old dead/skipped 5/
79 unc: duke 495/mcnc 4000/phs 20000/old dead/
80 unc: duke 495/mcnc 4000/x 4000/phs 20000/old dead/
86 unc: duke 495/mcnc 4000/phs 20000/old dead/skipped 5/
88 unc: duke 495/mcnc 4000/phs 20000/old dead/skipped 5/skipped 6/
92 unc: duke 495/mcnc 4000/phs 20000/old dead/skipped 5/
93 unc: duke 495/mcnc 4000/phs 20000/old dead/= u/skipped 5/
94 unc: duke 495/mcnc 4000/phs 20000/old dead/= un/skipped 5/
95 unc: duke 495/mcnc 4000/phs 20000/old dead/= unc/skipped 5/
96 unc: duke 495/mcnc 4000/phs 20000/old dead/= unc-/skipped 5/
97 unc: duke 495/mcnc 4000/phs 20000/old dead/= unc-c/skipped 5/
99 unc: duke 495/mcnc 4000/phs 20000/old dead/= unc-ch/skipped 5/",
}];

// A message that was handed on.
pub const MESSAGES: [Fronts; 1] = [Fronts {
    text: "From ann Sun Sep  9 01:46:40 2001 remote from mysite\n>From joe Sat Sep  8 12:00:00 2001 remote from phs\nHello\n",
    answers: "46 no envelope
47 m!ann 47
48 my!ann 48
49 mys!ann 49
50 mysi!ann 50
51 mysit!ann 51
52 mysite!ann 52
100 mysite!ann 53
101 mysite!p!joe 101
102 mysite!ph!joe 102
103 mysite!phs!joe 103
110 mysite!phs!joe 104",
}];
