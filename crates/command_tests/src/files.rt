//! Two small files, of which no goal holds the text, since the calls have no clause.

// A ball of one face, whose loop runs along its one edge and back.
const BALL: &[u8] =
    b"                                                                        S      1
1H,,1H;;                                                                G      1
     186       1       0       0       0       0       0       000000000D      1
     186       0       0       1       0                               0D      2
     514       2       0       0       0       0       0       000000000D      3
     514       0       0       1       1                               0D      4
     502       3       0       0       0       0       0       000000000D      5
     502       0       0       1       1                               0D      6
     504       4       0       0       0       0       0       000000000D      7
     504       0       0       1       1                               0D      8
     510       5       0       0       0       0       0       000000000D      9
     510       0       0       1       1                               0D     10
     508       6       0       0       0       0       0       000000000D     11
     508       0       0       1       1                               0D     12
     196       7       0       0       0       0       0       000000000D     13
     196       0       0       1       0                               0D     14
     100       8       0       0       0       0       0       000000000D     15
     100       0       0       1       0                               0D     16
     116       9       0       0       0       0       0       000000000D     17
     116       0       0       1       0                               0D     18
186,3,1,0;                                                             1P      1
514,1,9,1;                                                             3P      2
502,2,0.,-1.,0.,0.,1.,0.;                                              5P      3
504,1,15,5,1,5,2;                                                      7P      4
510,13,1,1,11;                                                         9P      5
508,4,0,7,1,1,0,1,5,2,1,0,0,7,1,0,0,1,5,1,1,0;                        11P      6
196,17,1.;                                                            13P      7
100,0.,0.,0.,0.,-1.,0.,1.;                                            15P      8
116,0.,0.,0.,0;                                                       17P      9
S      1G      1D     18P      9                                        T      1
";

// A solid that names itself as its shell.
const SHORT: &[u8] =
    b"tiny                                                                    S      1
1H,,1H;;                                                                G      1
     186       1       0       0       0       0       0       000000000D      1
     186       0       0       1       0                               0D      2
186,0,1,0;                                                             1P      1
S      1G      1D      2P      1                                        T      1
";

/// The bytes of the file with the ball.
pub fn ball() -> &'static [u8] {
    BALL
}

/// The bytes of a file of six lines, whose solid isn't closed.
pub fn short() -> &'static [u8] {
    SHORT
}
