//! Residues modulo the two primes, and the pairs that stand for residues of the ring.
use word_prime::{P1, P2, Residue, join_pair, split_pair};

#[test]
fn residues_and_pairs(rt: HostRuntime) {
    assert!(rt; Residue::<P1>::new(268369921).is_none());
    assert!(rt; Residue::<P2>::new(249561088).is_some());
    // 268369921 * 97389680, and 249561089 * 104729711 + 1
    assert_eq!(rt; join_pair(0, 1), 26136460727815280);
    assert_eq!(rt; split_pair(26136460727815280), (0, 1));
}
