use super::*;

#[test]
fn laws_are_free() {
    laws::laws();
}
