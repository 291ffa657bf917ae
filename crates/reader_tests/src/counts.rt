// What is counted: nodes, product signs, and the groups that a sign lies in.
use super::answers::{accepted, refused};
use std::alloc::{AllocError, Global};
use std::test::Fail;

// Each number, each letter of a right side, each + - * and each [ is a node.
#[test]
fn nodes(rt: HostRuntime) {
    accepted(&rt, b"A=a;", 1, 0);
    accepted(&rt, b"A=(((1)));", 1, 0);
    accepted(&rt, b"A=[a];", 2, 0);
    accepted(&rt, b"A=1+2-3*4;", 7, 1);
    accepted(&rt, b"T=[1+T*T];S=1+[S*T];", 12, 2);
    accepted(&rt, b"A=1;Z=(A-0)*[z+Z]*a;", 11, 2);
    let letters = b"A=1;B=A;C=B;D=C;E=D;F=E;G=F;H=G;I=H;J=I;K=J;L=K;M=L;\
        N=M;O=N;P=O;Q=P;R=Q;S=R;T=S;U=T;V=U;W=V;X=W;Y=X;Z=Y;";
    accepted(&rt, letters, 26, 0);
}

// A text with 56 nodes, eight to a line, between its two ends.
fn long<'a>(heap: Global, before: &'a [u8], after: &'a [u8]) -> Result<Vec<u8>, AllocError> {
    let nodes = b"+1+1+1+1\
        +1+1+1+1\
        +1+1+1+1\
        +1+1+1+1\
        -1-1-1-1\
        -1-1-1-1\
        *b*b*b*b";
    [before, nodes, after].concat(heap)
}

// There are 64 nodes at most. Here they end at byte 66, and `after` follows.
#[test]
fn most_nodes(rt: HostRuntime) -> Result<(), Fail> {
    let heap = rt.alloc();
    let before = b"A=[1+1+1+1";
    accepted(&rt, &long(heap, before, b"];")?, 64, 4);
    accepted(&rt, &long(heap, before, b" ] ; ")?, 64, 4);
    // where the sixty-fifth breaks other rules too, the lowest number decides
    for (after, number, place) in [
        (&b"+1];"[..], 18, 66),
        (b"-1];", 18, 66),
        (b"*1];", 18, 66),
        (b"];B=1;", 18, 70),
        (b"];B=b;", 18, 70),
        (b"];B=A;", 18, 70),
        (b"];B=[1];", 18, 70),
        (b"];B=(1);", 18, 71),
        (b"];B= \n1;", 18, 72),
        (b"];B=C;", 16, 70),
        (b"];A=1;", 15, 68),
        (b"];B=(((((((((((((((([1", 14, 86),
        (b"1];", 13, 66),
        (b"];B=+1;", 13, 70),
        (b"];B", 13, 69),
        (b"];B=1234567890;", 12, 70),
        (b"];B=#;", 11, 70),
    ] {
        refused(&rt, &long(heap, before, after)?, number, place);
    }
    // a capital without an equation comes after all else
    refused(&rt, &long(heap, b"A=[Z+1+1+1", b"];")?, 17, 3);
    refused(&rt, &long(heap, b"A=[Z+1+1+1", b"+1];")?, 18, 66);
    Ok(())
}

// An opening sign lies in fewer than 16 groups.
#[test]
fn most_groups(rt: HostRuntime) {
    accepted(&rt, b"A=((((((((((((((((1))))))))))))))));", 1, 0);
    accepted(&rt, b"A=[[[[[[[[[[[[[[[[1]]]]]]]]]]]]]]]];", 17, 0);
    accepted(&rt, b"A=([([([([([([([([A])])])])])])])]);", 9, 0);
    accepted(&rt, b"A=((((((((((((((((1)))))))))))))))*(2));", 3, 1);
    accepted(
        &rt,
        b"A=(1)*(1)*(1)*(1)*(1)*(1)*(1)*(1)*(1)*(1)*(1)*(1)*(1)*(1)*(1)*(1)*(1);",
        33,
        16,
    );
    refused(&rt, b"A=(((((((((((((((((", 14, 18);
    refused(&rt, b"A=[[[[[[[[[[[[[[[[[", 14, 18);
    refused(&rt, b"A=([([([([([([([([(", 14, 18);
    refused(&rt, b"A=(((((((((((((((([1])))))))))))))))));", 14, 18);
    refused(&rt, b"A=((((((((((((((((1)*((2", 14, 22);
    refused(&rt, b"A=1;B=(((((((((((((((((", 14, 22);
}
